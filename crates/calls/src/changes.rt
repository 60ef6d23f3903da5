// Changes to a board, and calls on one.
use score::values::{Four, Two};

#[derive(Clone, Copy, Drop)]
pub enum Change<E> {
    One { v: u32, entries: Two<E> },
    Pair { a: u32, b: u32, entries: Four<E> },
    // the value as asked for: any but 0 and 1 is turned down
    Pin { v: u32, value: u32 },
    Free { v: u32 },
}

// A call on an open board. The layout that `Score` asks about is in the buffer that is sent with it.
#[derive(Clone, Copy)]
pub enum Call<E> {
    Post(Change<E>),
    Back,
    Score,
}
