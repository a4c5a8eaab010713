//! Tokens for C: the steps on a token's word, and a bank of tokens with a seat for each of the caller's threads; include/lwkt.h declares the
//! calls. Two calls on one seat at the same time find that out, and the second is refused. A close can't fail for memory.
#![tactic(auto)]

mod answers;
mod asks;
mod bank_opens;
mod blocks;
mod cells;
mod close_calls;
mod closes;
mod closings;
mod desks;
mod endings;
mod exports;
mod free_calls;
mod handles;
mod list_answers;
mod list_calls;
mod places;
mod raw_boxes;
mod record_calls;
mod records;
mod references;
mod resumes;
mod section_calls;
mod sitters;
mod taken;
mod tokens;
mod word_calls;

pub use bank_opens::lwkt_bank_open;
pub use close_calls::lwkt_bank_close;
pub use closings::LwktClosing;
pub use exports::{
    lwkt_add, lwkt_again, lwkt_give, lwkt_lawful, lwkt_load, lwkt_mark, lwkt_restore, lwkt_share,
    lwkt_store, lwkt_take,
};
pub use free_calls::{lwkt_abandon, lwkt_bank_free};
pub use handles::{LwktBank, LwktHeld};
pub use list_calls::{lwkt_block, lwkt_resume};
pub use record_calls::{lwkt_read_record, lwkt_write_record};
pub use references::LwktReference;
pub use section_calls::{lwkt_store_give, lwkt_take_load};
pub use tokens::LwktToken;
pub use word_calls::{
    lwkt_word_again, lwkt_word_give_clean, lwkt_word_give_one, lwkt_word_give_written,
    lwkt_word_mark, lwkt_word_share, lwkt_word_take,
};
