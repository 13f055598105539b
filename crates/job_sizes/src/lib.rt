// The sizes of a job: what the program takes, what it lends, and the room that every job's stores and answer have. Each number stands here once.
#![tactic(auto)]

// Document 01, "Job": "at most 16,384 bytes".
pub const JOB_BYTES: usize = 16_384;

// Document 01, "Job": "n at most 128".
pub const LARGEST_N: usize = 128;

// Places of a store that has one more than n: the starts of rows and of slots, the chains.
pub const MORE_THAN_N: usize = LARGEST_N + 1;

// Entries that a job can hold: each takes 11 bytes, E, a column and a value.
pub const JOB_ENTRIES: usize = JOB_BYTES / 11;

// Document 01, "Job": "lends 2,048 subscripts and 2,048 slots a side".
pub const SIDE_ROOM: usize = 2_048;

// Bytes that are room for every answer.
pub const ANSWER_ROOM: usize = 8_192;
