// Why a call is refused, and the paper's number for it: the paper's section Replies.
#![tactic(auto)]

ghost use Rattle.std.specs.Prelude.{◌≡◌, if◌then◌else◌, Ok, Err};
ghost use Rattle.replies.specs.Reply.{refusal_number, reply_number};

// Each refusal has the paper's number; 0 is the number of a call that was done.
#[derive(Clone, Copy, Debug, PartialEq, Eq)]
pub enum Refusal {
    // The shape is outside the limits.
    Shape = 1,
    // The cell or scale buffer's length is not the exact one.
    Room,
    // A layer length exceeds the capacity, or one past the layers is not 0.
    Lengths,
    // The layer is not below the number of layers.
    Layer,
    // The head is not below the number of heads, or the side is not 0 or 1.
    Head,
    // Scores or sums are asked of a format that has none.
    Format,
    // A run, a query, an output or a group has the wrong length.
    Size,
    // More scores or weights than positions, or a position that is not there.
    Position,
    // The new positions exceed the capacity.
    Full,
    // The sequence number would pass 32 bits.
    Sequence,
}

impl From<Refusal> for u32 {
    ghost from_gives = { λ refusal number. number ≡ refusal_number refusal };

    fn from(refusal: Refusal) -> u32 {
        refusal as u32
    }
}

// The paper's number of what a call answered.
pub fn number<T: Drop>(reply: Result<T, Refusal>) -> u32
    ensures { result ≡ reply_number reply }
{
    match reply {
        Ok(_) => 0,
        Err(refusal) => refusal.into(),
    }
}

// Refuses unless a call's condition holds.
pub fn require(holds: bool, refusal: Refusal) -> Result<(), Refusal>
    ensures { result ≡ (if holds then Ok tt else Err refusal) }
{
    if holds { Ok(()) } else { Err(refusal) }
}
