//! What a door may keep.
ghost use Rattle.std.specs.Prelude.{List, Result};
ghost use Rattle.std.specs.declared.alloc.AllocError.{AllocError};
ghost use Rattle.door.specs.declared.turn.Turn.{Turn};

use std::alloc::AllocError;

/// An object that serves one ask at a time.
pub trait Object {
    /// What is asked.
    type Ask;

    /// What is answered.
    type Served;

    /// The object before, the ask, the answer and the object after.
    ghost serves: { Self → Self.Ask → Result Self.Served AllocError → Self → Type 0 };

    /// What `serve` asks for.
    ghost may_serve: { Self.Ask → Type 0 };

    /// What `enter` asks for: that the ask fits the turns that its pass has had.
    ghost fits: { List (Turn Self.Ask (Result Self.Served AllocError)) → Self.Ask → Type 0 };

    /// Serves one ask. After an error the object stands as `serves` says.
    fn serve(&mut self, ask: &Self::Ask) -> Result<Self::Served, AllocError>
        requires { may_serve ask.now }
        ensures { serves self.old ask.now result self.new };

    /// An ask that fits some turns may be served.
    ghost fitting: { (turns : List (Turn Self.Ask (Result Self.Served AllocError))) (ask : Self.Ask) → fits turns ask → may_serve ask };
}

/// What an ask is answered: an error is want of memory.
pub type Answer<O> = Result<<O as Object>::Served, AllocError>;
