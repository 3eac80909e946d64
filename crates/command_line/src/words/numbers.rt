//! Numbers of the command line.

ghost use Rattle.std.specs.Prelude.{◌≡◌, ◌≤◌, ◌*◌, ℕ, option_map, IfSome, IfNone, Some};
ghost use Rattle.move_msg.specs.declared.arbiter_id.ArbiterId.{ArbiterId};
ghost use Rattle.arbiter_server.specs.declared.line_log.LogForm.{LogForm};
ghost use Rattle.command_line.specs.Numbers.{IsAtOnce, IsCache, IsDatagrams, IsDelay, IsHundredOr, IsLog, IsMe, IsMegabytes, IsStore, is_set};

use arbiter_server::LogForm;
use board_core::Delay;
use move_msg::ArbiterId;
use std::marker::Model;
use std::num::NonZeroUsize;

/// How many decoded blocks the cache of an arbiter's tables may have, 1 to 4096; contracts see the
/// number.
#[derive(Clone, Copy)]
pub struct CacheSize {
    blocks: u16,
}

impl Model for CacheSize {
    ghost use Rattle.std.specs.Prelude.{ℕ, ◌≤◌};

    ghost Value = { ℕ };

    ghost view = { λ c. c.blocks };

    ghost invariant = { λ c. (1 ≤ c.blocks) × (c.blocks ≤ 4096) };

    ghost inverse = { λ n. record { blocks = n } };
}

impl CacheSize {
    /// The number of blocks in a text, and 64 where there is no text; none outside 1 to 4096.
    pub fn of(text: Option<&str>) -> Option<CacheSize>
        ensures some { IfSome result (IsCache (option_map (λ s. s.now) text.entry)) }
        ensures none { IfNone result ((n : ℕ) → IsCache (option_map (λ s. s.now) text.entry) n → ⊥) }
    {
        let Some(text) = text else {
            return Some(CacheSize::usual());
        };
        let Ok(blocks) = text.parse::<u16>() else {
            return None;
        };
        if blocks == 0 || blocks > 4096 {
            return None;
        }
        Some(CacheSize { blocks })
    }

    /// 64 blocks.
    pub fn usual() -> CacheSize
        ensures { result ≡ 64 }
    {
        CacheSize { blocks: 64 }
    }

    /// The number of blocks.
    pub fn blocks(self) -> usize
        ensures value { result ≡ self }
        ensures some { 1 ≤ result }
        ensures most { result ≤ 4096 }
    {
        usize::from(self.blocks)
    }
}

/// How many megabytes of tables a command keeps at most, 1 to 1,000,000, of 1,000,000 bytes each; contracts see the number.
#[derive(Clone, Copy)]
pub struct Megabytes {
    number: usize,
}

impl Model for Megabytes {
    ghost use Rattle.std.specs.Prelude.{ℕ, ◌≤◌};

    ghost Value = { ℕ };

    ghost view = { λ m. m.number };

    ghost invariant = { λ m. (1 ≤ m.number) × (m.number ≤ 1000000) };

    ghost inverse = { λ n. record { number = n } };
}

impl Megabytes {
    /// The number in a text; none outside 1 to 1,000,000.
    pub fn of(text: &str) -> Option<Megabytes>
        ensures some { IfSome result (IsMegabytes text.now) }
        ensures none { IfNone result ((n : ℕ) → IsMegabytes text.now n → ⊥) }
    {
        let Ok(number) = text.parse::<usize>() else {
            return None;
        };
        if number == 0 || number > 1_000_000 {
            return None;
        }
        Some(Megabytes { number })
    }

    /// The number of bytes.
    pub fn bytes(self) -> usize
        ensures { result ≡ self * 1000000 }
    {
        self.number * 1_000_000
    }
}

/// For how many further plies a verdict by tables must hold, by a text, and for none where there is no text; none where the text is no
/// number up to 8.
pub fn delay_of(text: Option<&str>) -> Option<Delay>
    ensures some { IfSome result (IsDelay (option_map (λ s. s.now) text.entry)) }
    ensures none { IfNone result ((n : ℕ) → IsDelay (option_map (λ s. s.now) text.entry) n → ⊥) }
{
    let Some(text) = text else {
        return Some(Delay::none());
    };
    match text.parse::<u8>() {
        Ok(plies) => Delay::new(plies),
        Err(_) => None,
    }
}

/// The number from 1 to 65535 in a text, and 100 where there is no text; none for any other.
pub fn hundred_or(text: Option<&str>) -> Option<u16>
    ensures some { IfSome result (IsHundredOr (option_map (λ s. s.now) text.entry)) }
    ensures none { IfNone result ((n : ℕ) → IsHundredOr (option_map (λ s. s.now) text.entry) n → ⊥) }
{
    let Some(text) = text else {
        return Some(100);
    };
    match text.parse::<u16>() {
        Ok(number) if 1 <= number => Some(number),
        _ => None,
    }
}

/// How many games a text tells that are open at once, 1 to 65535, and 256 where there is no text; none where it tells another
/// number.
pub fn at_once_of(text: Option<&str>) -> Option<NonZeroUsize>
    ensures some { IfSome result (λ n. IsAtOnce (option_map (λ s. s.now) text.entry) n.value) }
    ensures none { IfNone result ((n : ℕ) → IsAtOnce (option_map (λ s. s.now) text.entry) n → ⊥) }
{
    let Some(text) = text else {
        return NonZeroUsize::new(256);
    };
    match text.parse::<u16>() {
        Ok(number) => NonZeroUsize::new(usize::from(number)),
        Err(_) => None,
    }
}

/// Which lines of a host a text says are written, and all where there is no text; none where it says neither `all` nor `changes` nor `none`.
pub fn log_of(text: Option<&str>) -> Option<LogForm>
    ensures some { IfSome result (IsLog (option_map (λ s. s.now) text.entry)) }
    ensures none { IfNone result ((form : LogForm) → IsLog (option_map (λ s. s.now) text.entry) form → ⊥) }
{
    match text {
        None => Some(LogForm::All),
        Some(word) => log_by(word),
    }
}

/// Which lines a word says are written.
fn log_by(word: &str) -> Option<LogForm>
    ensures some { IfSome result (IsLog (Some word.now)) }
    ensures none { IfNone result ((form : LogForm) → IsLog (Some word.now) form → ⊥) }
{
    if word == "all" {
        return Some(LogForm::All);
    }
    if word == "changes" {
        return Some(LogForm::Changes);
    }
    if word == "none" {
        return Some(LogForm::Nothing);
    }
    None
}

/// Where a host keeps the records of its games.
#[derive(Clone, Copy, Debug, PartialEq, Eq)]
pub enum StoreForm {
    /// All of them in one store in their folder, a SQLite database.
    Sqlite,
    /// Each of them in a file of its own.
    Files,
}

/// Where a text says that records are kept, and in a store where there is no text; none where it says neither `sqlite` nor `files`.
pub fn store_of(text: Option<&str>) -> Option<StoreForm>
    ensures some { IfSome result (IsStore (option_map (λ s. s.now) text.entry)) }
    ensures none { IfNone result ((form : StoreForm) → IsStore (option_map (λ s. s.now) text.entry) form → ⊥) }
{
    match text {
        None => Some(StoreForm::Sqlite),
        Some(word) => store_by(word),
    }
}

/// Where a word says that records are kept.
fn store_by(word: &str) -> Option<StoreForm>
    ensures some { IfSome result (IsStore (Some word.now)) }
    ensures none { IfNone result ((form : StoreForm) → IsStore (Some word.now) form → ⊥) }
{
    if word == "sqlite" {
        return Some(StoreForm::Sqlite);
    }
    if word == "files" {
        return Some(StoreForm::Files);
    }
    None
}

/// The number of datagrams in a text, 0 to 2^32 - 1; none where it is no such number. Where there is no text they are 2^64 - 1,
/// which no run comes to.
pub fn datagrams_of(text: Option<&str>) -> Option<u64>
    ensures some { IfSome result (IsDatagrams (option_map (λ s. s.now) text.entry)) }
    ensures none { IfNone result ((n : ℕ) → IsDatagrams (option_map (λ s. s.now) text.entry) n → ⊥) }
{
    let Some(text) = text else {
        return Some(u64::MAX);
    };
    match text.parse::<u32>() {
        Ok(datagrams) => Some(u64::from(datagrams)),
        Err(_) => None,
    }
}

/// The number of the arbiter in a text, 1 or 2; none where it is another number.
pub fn me_of(text: &str) -> Option<ArbiterId>
    ensures some { IfSome result (IsMe (Some text.now)) }
    ensures none { IfNone result ((who : ArbiterId) → IsMe (Some text.now) who → ⊥) }
{
    match text.parse::<u8>() {
        Ok(number) => ArbiterId::of_number(number),
        Err(_) => None,
    }
}

/// Whether a flag is given: its value is `true`.
pub fn is_set(text: Option<&str>) -> bool
    ensures { result ≡ is_set (option_map (λ s. s.now) text.entry) }
{
    match text {
        Some(text) => text == "true",
        None => false,
    }
}
