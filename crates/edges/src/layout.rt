// How edges lie in the lent words.

// The words of an item.
pub const ITEM: usize = 4;

// The most items on an edge.
pub const CAPACITY: usize = 256;

// The slots of an edge: twice as many as it holds, so that its items are seldom moved; and a cache line more, so that
// the same places of several edges don't get in each other's way there.
pub const SLOTS: usize = 2 * CAPACITY + 4;

// The words of an edge.
pub const WORDS: usize = ITEM * SLOTS;

// The most edges.
pub const MOST: usize = 64;
