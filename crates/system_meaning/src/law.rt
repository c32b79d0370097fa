//! Laws of the source machine.
ghost use Rattle.std.specs.Prelude.{◌≡◌, ◌++◌, ℕ, Bool, List};
ghost use Rattle.system_meaning.specs.Below.elan_scope.specs.declared.env.Env.{Env};
ghost use Rattle.session_text.specs.declared.events.Event.{Event};
ghost use Rattle.system_meaning.specs.Systems.{System};
ghost use Rattle.system_meaning.specs.Monitor.{Reading};
ghost use Rattle.system_meaning.specs.Events.{after, run, output};

/// A fixpoint leaves the system as it is, and so does the one that ends a session.
pub fn fixpoints_change_nothing()
    ensures fixpoint { (read : Env → Bool → List ℕ → Reading) → (s : System) → after read s Event.Fixpoint ≡ s }
    ensures shut { (read : Env → Bool → List ℕ → Reading) → (s : System) → after read s Event.Shut ≡ s }
{}

/// Events and then others are one list of events: the system after all, and what they show, are those of the others behind the first.
pub fn events_join()
    ensures system { (read : Env → Bool → List ℕ → Reading) → (s : System) → (es : List Event) → (fs : List Event)
        → run read s (es ++ fs) ≡ run read (run read s es) fs }
    ensures shown { (read : Env → Bool → List ℕ → Reading) → (plain : Bool) → (s : System) → (es : List Event) → (fs : List Event)
        → output read plain s (es ++ fs) ≡ output read plain s es ++ output read plain (run read s es) fs }
{}
