//! The limits of the model, of scripts and of traces, each once: clauses, checks and messages cite them from here.

/// The most processors of a machine.
pub const CPU_LIMIT: usize = 8;

/// The same, as a number of a text.
pub const MOST_CPUS: u64 = 8;

/// The most threads of a processor, ended ones too.
pub const THREAD_LIMIT: usize = 16;

/// The most threads of a machine: 16 for each of 8 processors.
pub const MACHINE_THREADS: usize = 128;

/// The most tokens of a machine.
pub const TOKEN_LIMIT: usize = 64;

/// The most cells of a token's row.
pub const CELL_LIMIT: usize = 4;

/// The most bytes of a token's record.
pub const RECORD_LIMIT: usize = 64;

/// The most messages of a machine.
pub const MESSAGE_LIMIT: usize = 64;

/// The most references of a list.
pub const LIST_LIMIT: usize = 32;

/// The most entries of a thread's log. Later answers make none.
pub const LOG_LIMIT: usize = 32;

/// The last generation of a token, 2 ^ 46 - 1.
pub const LAST_GENERATION: u64 = 70368744177663;

/// The last round of a message, 2 ^ 51 - 1.
pub const LAST_ROUND: u64 = 2251799813685247;

/// The most steps of a thread of a script.
pub const STEP_LIMIT: usize = 256;

/// How often a thread of a script makes its steps at most.
pub const MOST_REPEATS: u64 = 1000000;

/// The most turns that poll a thread, for each processor of a script on threads; in rounds the most rounds.
pub const MOST_TURNS: u64 = 1000000;

/// The most turns that poll none, for each processor of a script on threads.
pub const MOST_IDLE: u64 = 100000000;

/// The highest error of a reply, and the highest op of a call.
pub const MOST_CODE: u64 = 4294967295;

/// The most bytes of a script, in either form.
pub const SCRIPT_BYTES: usize = 1048576;

/// The most bytes of a trace in one text.
pub const TRACE_BYTES: usize = 268435456;

/// The most events of a trace in one text.
pub const TRACE_EVENTS: usize = 50000000;

/// The most bytes of a line of a trace in lines.
pub const LINE_BYTES: usize = 1048576;
