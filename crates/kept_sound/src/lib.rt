// Every call leaves a sound ledger sound. The promises are in specs/. Each function is there for its
// contract alone, a law on those definitions.
#![tactic(auto)]

ghost use Rattle.kept_sound.specs.Laws.{BookedKeepsSound, CallKeepsSound, ClearKeepsSound, ClearsExactly, JoinedKeepsSound, LeavesLength, LeavesPlaces, LeavesRest, OpenedKeepsSound};

/// From a sound ledger with 64 places every call leaves a sound one, with 64 places; from any ledger it leaves the records past the last entry.
pub fn every_call_keeps_sound()
    ensures stays_sound { CallKeepsSound }
    ensures keeps_places { LeavesPlaces }
    ensures keeps_table { LeavesLength }
    ensures keeps_rest { LeavesRest }
{}

/// The three steps of an accept leave a sound ledger sound, and so does a clearing.
pub fn each_step_keeps_sound()
    ensures booking { BookedKeepsSound }
    ensures joining { JoinedKeepsSound }
    ensures opening { OpenedKeepsSound }
    ensures clearing { ClearKeepsSound }
{}

/// A clearing removes exactly the schemes that ended by its month with no standing credit, and their entries; the rest stay as they are.
pub fn clears_exactly()
    ensures { ClearsExactly }
{}
