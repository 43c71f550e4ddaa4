// The laws of lawful steps.
ghost use Rattle.pn_storecore.specs.Laws.{SoundLaw, PublishedLaw, OwnerLaw, PlaceLaw};
ghost use Rattle.pn_storecore.specs.CallLaws.{AsksLaw, HoldsLaw, StandsLaw, DidLaw, LeavesLaw, GrewLaw, ClaimsLaw, WasLaw};
ghost use Rattle.pn_storecore.specs.DiscardLaws.{DiscardLaw, AloneLaw};

/// The empty store is sound. Lawful steps of any number of installers leave a sound world after each
/// of them. An installer that stops makes no further step. What stands in a sound store has its address
/// as its digest, also after discards.
pub fn sound_law()
    ensures { SoundLaw }
{}

/// Where something is published, something stays under lawful steps that has the address as its digest,
/// and so at each file that a listing names. Other bytes of that digest may take its place.
pub fn published_law()
    ensures { PublishedLaw }
{}

/// A number belongs to one installer from its claim until that installer drops it.
pub fn owner_law()
    ensures { OwnerLaw }
{}

/// What is lawful for an installer stays so under lawful steps of others.
pub fn place_law()
    ensures { PlaceLaw }
{}

/// An installer may make a step on a file of a folder that it holds, where the files are right for it.
pub fn asks_law()
    ensures { AsksLaw }
{}

/// A number that was claimed is held with no files, and each call on a file changes that file alone.
/// After a refusal the file changed or not, by a front of an append's bytes. A folder that was dropped
/// is gone, and after a refusal it is gone or held as before.
pub fn holds_law()
    ensures { HoldsLaw }
{}

/// What was made, published or found stands, and in a store that isn't damaged it has its address as
/// its digest.
pub fn stands_law()
    ensures { StandsLaw }
{}

/// What each call did to the journal, whatever it answered: lawful steps of others came, and then its
/// own step, a front of an append, or none.
pub fn did_law()
    ensures { DidLaw }
{}

/// Whatever a call answers, it leaves the folders that the installer holds and that its step isn't on.
pub fn leaves_law()
    ensures { LeavesLaw }
{}

/// Whatever a call answers whose step was asked for, the journal grew by lawful steps. So something
/// still stands where something stood, and a store that was sound, or not damaged, is so still. No
/// discard is such a call.
pub fn grew_law()
    ensures { GrewLaw }
{}

/// A number's folder was made by the claim that answered true, and stood at the step of one that
/// answered false. No other call makes it.
pub fn claims_law()
    ensures { ClaimsLaw }
{}

/// What a read found is by what stood at the address at a step of the call, and what stood at a step of
/// a call stood at one of the calls around it. In a store that isn't damaged it had its address as its
/// digest.
pub fn was_law()
    ensures { WasLaw }
{}

/// A discard takes away what it is of and leaves what else stands, each at its digest. It leaves a sound
/// store, if it is of a temporary folder, of a listing, or of a file that no listing names.
pub fn discard_law()
    ensures { DiscardLaw }
{}

/// What is known of calls beside which no other installer made a step.
pub fn alone_law()
    ensures { AloneLaw }
{}
