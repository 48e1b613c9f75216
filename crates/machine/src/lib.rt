// The machine by value: messages, memory, a thread's state with its views, four threads. Times and views are bytes.
#![tactic(auto)]

pub mod machines;
pub mod merge;
pub mod messages;
pub mod promises;
pub mod threads;
pub mod times;

// A message of memory: a store of `thread`.
#[derive(Clone, Copy, Default)]
pub struct Message {
    pub location: u8,
    pub value: u8,
    pub thread: u8,
}

// The messages at times 1, 2, .. `count`; the other entries are 0.
#[derive(Clone, Copy)]
pub struct Memory {
    pub messages: [Message; 16],
    pub count: u8,
}

#[derive(Clone, Copy, Default)]
pub struct Register {
    pub value: u8,
    pub view: u8,
}

// A location's forward pair: the time of the thread's last store there, and the view to read it with.
#[derive(Clone, Copy, Default)]
pub struct Forward {
    pub time: u8,
    pub view: u8,
}

// The views of a thread; `cap` and `rel` are CAP and Rel of the Promising-ARM paper (Pulte et al., PLDI 2019), the others have its names.
#[derive(Clone, Copy, Default)]
pub struct Views {
    pub rOld: u8,
    pub wOld: u8,
    pub rNew: u8,
    pub wNew: u8,
    pub cap: u8,
    pub rel: u8,
}

// The outstanding promises are a set of times: time t is in it if bit t - 1 is 1. The arrays come first, so that every copy of a
// thread cuts it at the same places: a processor hands such a copy on without waiting for memory.
#[derive(Clone, Copy)]
pub struct Thread {
    pub registers: [Register; 8],
    pub coherence: [u8; 16],
    pub forward: [Forward; 16],
    pub promises: u16,
    pub position: u8,
    pub views: Views,
}

#[derive(Clone, Copy)]
pub struct Machine {
    pub memory: Memory,
    pub threads: [Thread; 4],
}
