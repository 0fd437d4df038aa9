//! What is done on a day by controllers of one subscription.

// One call of a controller, which is named by its place, or of what makes controllers.
#[derive(Clone, Copy)]
pub enum Act {
    // The subscription of this place is shared, and its first controller requests this many items, if any. Those after
    // it move up by a place.
    Share(usize, i64),
    // One more controller, which requests this many items, if any.
    Another(i64),
    // The controller of this place requests this many items, or cancels, or waits for the end.
    Request(usize, i64),
    Cancel(usize),
    End(usize),
    // What each of them tells of the subscription.
    Stand,
    // Each of them asks for the subscription back, in order. It goes behind the others.
    Unite,
}
