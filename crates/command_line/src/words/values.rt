//! The values of a command, taken from its words, or the fault of one.

ghost use Rattle.std.specs.Prelude.{◌≡◌, [], ◌∷◌, IfOk, IfErr, OnOk, None, Some, codes};
ghost use Rattle.clap.specs.Words.{Text, first_value, found_of};
ghost use Rattle.move_msg.specs.Stamps.{IsGameName};
ghost use Rattle.command_line.specs.Addresses.{AreAddresses, AreRecipients, IsAddressIfAny};
ghost use Rattle.command_line.specs.Misuses.{AreGameWords, AreWell, FlagNotWith, Holds, IsFirstMisuse, IsToldMisuse, NoOption, NoWord, NotWith, Unfit, WordNotWith, fault_words, game_faults, me_faults, name_faults, recipient_faults, to_faults};
ghost use Rattle.command_line.specs.GamePaths.{SpellsStamp};
ghost use Rattle.command_line.specs.Numbers.{IsAtOnce, IsCache, IsDatagrams, IsDelay, IsHundredOr, IsLog, IsMe, IsMemory, IsStore};

use crate::words::addresses::{are_addresses, are_recipients, is_address};
use crate::words::numbers::{
    CacheSize, Megabytes, StoreForm, at_once_of, datagrams_of, delay_of, hundred_or, is_set,
    log_of, me_of, store_of,
};
use crate::words::usage::{Instead, ValueFault, Wanted};
use arbiter_server::LogForm;
use board_core::Delay;
use clap::ArgMatches;
use game_status::stamp_of;
use move_msg::{ArbiterId, GameName, Stamp};
use std::num::NonZeroUsize;

/// The value of an option that has to be there.
pub(crate) fn option_in<'a>(
    matches: &ArgMatches<'a>,
    name: &'static str,
) -> Result<&'a str, ValueFault<'a>>
    ensures ok { IfOk result (λ text. Some text.now ≡ first_value (found_of matches.now) name.now) }
    ensures err { IfErr result (λ fault. IsToldMisuse (first_value (found_of matches.now)) (NoOption name.now) (fault_words fault)) }
{
    match matches.get_str(name) {
        Some(text) => Ok(text),
        None => Err(ValueFault::NoOption(name)),
    }
}

/// A word that has to be there.
pub(crate) fn word_in<'a>(
    matches: &ArgMatches<'a>,
    name: &'static str,
) -> Result<&'a str, ValueFault<'a>>
    ensures ok { IfOk result (λ text. Some text.now ≡ first_value (found_of matches.now) name.now) }
    ensures err { IfErr result (λ fault. IsToldMisuse (first_value (found_of matches.now)) (NoWord name.now) (fault_words fault)) }
{
    match matches.get_str(name) {
        Some(text) => Ok(text),
        None => Err(ValueFault::NoWord(name)),
    }
}

/// The stamp of a game, a word that has to be there: 32 lower-case hexadecimal digits.
pub(crate) fn stamp_word<'a>(matches: &ArgMatches<'a>) -> Result<Stamp, ValueFault<'a>>
    ensures ok { IfOk result (λ stamp. (text : Text) × (Some text ≡ first_value (found_of matches.now) (codes "FILE")) × SpellsStamp text stamp) }
    ensures err { IfErr result (λ fault. IsFirstMisuse (first_value (found_of matches.now)) (NoWord (codes "FILE") ∷ Unfit Wanted.Stamp ∷ []) (fault_words fault)) }
{
    let text = word_in(matches, "FILE")?;
    match stamp_of(text.as_bytes()) {
        Some(stamp) => Ok(stamp),
        None => Err(ValueFault::Unfit(Wanted::Stamp, text)),
    }
}

/// That an option isn't there, since another one takes its place.
pub(crate) fn without<'a>(
    matches: &ArgMatches<'a>,
    name: &'static str,
    instead: Instead,
) -> Result<(), ValueFault<'a>>
    ensures ok { OnOk result (first_value (found_of matches.now) name.now ≡ None) }
    ensures err { IfErr result (λ fault. IsToldMisuse (first_value (found_of matches.now)) (NotWith instead name.now) (fault_words fault)) }
{
    match matches.get_str(name) {
        None => Ok(()),
        Some(_) => Err(ValueFault::NotWith(instead, name)),
    }
}

/// That a word isn't there, since an option takes its place.
pub(crate) fn without_word<'a>(
    matches: &ArgMatches<'a>,
    name: &'static str,
    instead: Instead,
) -> Result<(), ValueFault<'a>>
    ensures ok { OnOk result (first_value (found_of matches.now) name.now ≡ None) }
    ensures err { IfErr result (λ fault. IsToldMisuse (first_value (found_of matches.now)) (WordNotWith instead name.now) (fault_words fault)) }
{
    match matches.get_str(name) {
        None => Ok(()),
        Some(_) => Err(ValueFault::WordNotWith(instead, name)),
    }
}

/// That a flag isn't given beside another one that excludes it.
pub(crate) fn without_flag<'a>(
    matches: &ArgMatches<'a>,
    name: &'static str,
    other: Instead,
) -> Result<(), ValueFault<'a>>
    ensures ok { OnOk result (Holds (first_value (found_of matches.now)) (FlagNotWith other name.now) → ⊥) }
    ensures err { IfErr result (λ fault. IsToldMisuse (first_value (found_of matches.now)) (FlagNotWith other name.now) (fault_words fault)) }
{
    if is_set(matches.get_str(other.name())) && is_set(matches.get_str(name)) {
        return Err(ValueFault::FlagNotWith(other, name));
    }
    Ok(())
}

/// The name of a game, of an option that has to be there.
fn game_name_in<'a>(matches: &ArgMatches<'a>) -> Result<GameName<'a>, ValueFault<'a>>
    ensures ok { IfOk result (λ name. (Some name ≡ first_value (found_of matches.now) (codes "name")) × IsGameName name) }
    ensures well { IfOk result (λ name. AreWell (first_value (found_of matches.now)) name_faults) }
    ensures err { IfErr result (λ fault. IsFirstMisuse (first_value (found_of matches.now)) name_faults (fault_words fault)) }
{
    let text = option_in(matches, "name")?;
    match GameName::of(text.as_bytes()) {
        Some(name) => Ok(name),
        None => Err(ValueFault::Unfit(Wanted::GameName, text)),
    }
}

/// The words on a game.
#[derive(Drop)]
pub(crate) struct GameWords<'a> {
    /// Its name.
    pub(crate) name: GameName<'a>,
    /// The FEN text of its start.
    pub(crate) start: &'a str,
    /// The folder of its tables.
    pub(crate) tables: &'a str,
}

/// The words on a game, of options that have to be there.
pub(crate) fn game_words_in<'a>(matches: &ArgMatches<'a>) -> Result<GameWords<'a>, ValueFault<'a>>
    ensures ok { IfOk result (λ w. AreGameWords (first_value (found_of matches.now)) w.name w.start.now w.tables.now) }
    ensures well { IfOk result (λ w. AreWell (first_value (found_of matches.now)) game_faults) }
    ensures err { IfErr result (λ fault. IsFirstMisuse (first_value (found_of matches.now)) game_faults (fault_words fault)) }
{
    Ok(GameWords {
        name: game_name_in(matches)?,
        start: option_in(matches, "start")?,
        tables: option_in(matches, "tables")?,
    })
}

/// The addresses to which messages are sent, of an option that has to be there.
pub(crate) fn to_in<'a>(matches: &ArgMatches<'a>) -> Result<&'a str, ValueFault<'a>>
    ensures ok { IfOk result (λ to. (Some to.now ≡ first_value (found_of matches.now) (codes "to")) × AreAddresses to.now) }
    ensures well { IfOk result (λ to. AreWell (first_value (found_of matches.now)) to_faults) }
    ensures err { IfErr result (λ fault. IsFirstMisuse (first_value (found_of matches.now)) to_faults (fault_words fault)) }
{
    let text = option_in(matches, "to")?;
    if are_addresses(text) {
        Ok(text)
    } else {
        Err(ValueFault::Unfit(Wanted::Addresses, text))
    }
}

/// To whom answers are sent, of an option that has to be there: addresses, and the word for whoever sent the last datagram.
pub(crate) fn recipients_in<'a>(matches: &ArgMatches<'a>) -> Result<&'a str, ValueFault<'a>>
    ensures ok { IfOk result (λ to. (Some to.now ≡ first_value (found_of matches.now) (codes "to")) × AreRecipients to.now) }
    ensures well { IfOk result (λ to. AreWell (first_value (found_of matches.now)) recipient_faults) }
    ensures err { IfErr result (λ fault. IsFirstMisuse (first_value (found_of matches.now)) recipient_faults (fault_words fault)) }
{
    let text = option_in(matches, "to")?;
    if are_recipients(text) {
        Ok(text)
    } else {
        Err(ValueFault::Unfit(Wanted::Recipients, text))
    }
}

/// That the address at which datagrams come is one, where it is named.
pub(crate) fn check_bind<'a>(matches: &ArgMatches<'a>) -> Result<(), ValueFault<'a>>
    ensures ok { OnOk result (IsAddressIfAny (first_value (found_of matches.now) (codes "bind"))) }
    ensures err { IfErr result (λ fault. IsToldMisuse (first_value (found_of matches.now)) (Unfit Wanted.Address) (fault_words fault)) }
{
    let Some(text) = matches.get_str("bind") else {
        return Ok(());
    };
    if is_address(text) {
        Ok(())
    } else {
        Err(ValueFault::Unfit(Wanted::Address, text))
    }
}

/// The size of a cache.
pub(crate) fn cache_in<'a>(matches: &ArgMatches<'a>) -> Result<CacheSize, ValueFault<'a>>
    ensures ok { IfOk result (IsCache (first_value (found_of matches.now) (codes "cache"))) }
    ensures err { IfErr result (λ fault. IsToldMisuse (first_value (found_of matches.now)) (Unfit Wanted.Cache) (fault_words fault)) }
{
    let text = matches.get_str("cache");
    match CacheSize::of(text) {
        Some(cache) => Ok(cache),
        None => Err(ValueFault::Unfit(Wanted::Cache, text.unwrap_or(""))),
    }
}

/// How many megabytes of tables are kept at most, if that is told.
pub(crate) fn memory_in<'a>(matches: &ArgMatches<'a>) -> Result<Option<Megabytes>, ValueFault<'a>>
    ensures ok { IfOk result (IsMemory (first_value (found_of matches.now) (codes "memory"))) }
    ensures err { IfErr result (λ fault. IsToldMisuse (first_value (found_of matches.now)) (Unfit Wanted.Memory) (fault_words fault)) }
{
    let Some(text) = matches.get_str("memory") else {
        return Ok(None);
    };
    match Megabytes::of(text) {
        Some(most) => Ok(Some(most)),
        None => Err(ValueFault::Unfit(Wanted::Memory, text)),
    }
}

/// The delay of a verdict.
pub(crate) fn delay_in<'a>(matches: &ArgMatches<'a>) -> Result<Delay, ValueFault<'a>>
    ensures ok { IfOk result (IsDelay (first_value (found_of matches.now) (codes "delay"))) }
    ensures err { IfErr result (λ fault. IsToldMisuse (first_value (found_of matches.now)) (Unfit Wanted.Delay) (fault_words fault)) }
{
    let text = matches.get_str("delay");
    match delay_of(text) {
        Some(delay) => Ok(delay),
        None => Err(ValueFault::Unfit(Wanted::Delay, text.unwrap_or(""))),
    }
}

/// How many milliseconds the first try of a move lasts.
pub(crate) fn wait_in<'a>(matches: &ArgMatches<'a>) -> Result<u16, ValueFault<'a>>
    ensures ok { IfOk result (IsHundredOr (first_value (found_of matches.now) (codes "wait"))) }
    ensures err { IfErr result (λ fault. IsToldMisuse (first_value (found_of matches.now)) (Unfit Wanted.Wait) (fault_words fault)) }
{
    let text = matches.get_str("wait");
    match hundred_or(text) {
        Some(wait) => Ok(wait),
        None => Err(ValueFault::Unfit(Wanted::Wait, text.unwrap_or(""))),
    }
}

/// How often a move is sent at most.
pub(crate) fn tries_in<'a>(matches: &ArgMatches<'a>) -> Result<u16, ValueFault<'a>>
    ensures ok { IfOk result (IsHundredOr (first_value (found_of matches.now) (codes "tries"))) }
    ensures err { IfErr result (λ fault. IsToldMisuse (first_value (found_of matches.now)) (Unfit Wanted.Tries) (fault_words fault)) }
{
    let text = matches.get_str("tries");
    match hundred_or(text) {
        Some(tries) => Ok(tries),
        None => Err(ValueFault::Unfit(Wanted::Tries, text.unwrap_or(""))),
    }
}

/// How many games are open at once.
pub(crate) fn at_once_in<'a>(matches: &ArgMatches<'a>) -> Result<NonZeroUsize, ValueFault<'a>>
    ensures ok { IfOk result (λ n. IsAtOnce (first_value (found_of matches.now) (codes "at-once")) n.value) }
    ensures err { IfErr result (λ fault. IsToldMisuse (first_value (found_of matches.now)) (Unfit Wanted.AtOnce) (fault_words fault)) }
{
    let text = matches.get_str("at-once");
    match at_once_of(text) {
        Some(at_once) => Ok(at_once),
        None => Err(ValueFault::Unfit(Wanted::AtOnce, text.unwrap_or(""))),
    }
}

/// Which lines of a host are written.
pub(crate) fn log_in<'a>(matches: &ArgMatches<'a>) -> Result<LogForm, ValueFault<'a>>
    ensures ok { IfOk result (IsLog (first_value (found_of matches.now) (codes "log"))) }
    ensures err { IfErr result (λ fault. IsToldMisuse (first_value (found_of matches.now)) (Unfit Wanted.Log) (fault_words fault)) }
{
    let text = matches.get_str("log");
    match log_of(text) {
        Some(form) => Ok(form),
        None => Err(ValueFault::Unfit(Wanted::Log, text.unwrap_or(""))),
    }
}

/// Where records are kept.
pub(crate) fn store_in<'a>(matches: &ArgMatches<'a>) -> Result<StoreForm, ValueFault<'a>>
    ensures ok { IfOk result (IsStore (first_value (found_of matches.now) (codes "store"))) }
    ensures err { IfErr result (λ fault. IsToldMisuse (first_value (found_of matches.now)) (Unfit Wanted.Store) (fault_words fault)) }
{
    let text = matches.get_str("store");
    match store_of(text) {
        Some(form) => Ok(form),
        None => Err(ValueFault::Unfit(Wanted::Store, text.unwrap_or(""))),
    }
}

/// A number of datagrams.
pub(crate) fn datagrams_in<'a>(matches: &ArgMatches<'a>) -> Result<u64, ValueFault<'a>>
    ensures ok { IfOk result (IsDatagrams (first_value (found_of matches.now) (codes "datagrams"))) }
    ensures err { IfErr result (λ fault. IsToldMisuse (first_value (found_of matches.now)) (Unfit Wanted.Datagrams) (fault_words fault)) }
{
    let text = matches.get_str("datagrams");
    match datagrams_of(text) {
        Some(datagrams) => Ok(datagrams),
        None => Err(ValueFault::Unfit(Wanted::Datagrams, text.unwrap_or(""))),
    }
}

/// A number of requests.
pub(crate) fn requests_in<'a>(matches: &ArgMatches<'a>) -> Result<u64, ValueFault<'a>>
    ensures ok { IfOk result (IsDatagrams (first_value (found_of matches.now) (codes "requests"))) }
    ensures err { IfErr result (λ fault. IsToldMisuse (first_value (found_of matches.now)) (Unfit Wanted.Requests) (fault_words fault)) }
{
    let text = matches.get_str("requests");
    match datagrams_of(text) {
        Some(requests) => Ok(requests),
        None => Err(ValueFault::Unfit(Wanted::Requests, text.unwrap_or(""))),
    }
}

/// Which of the two arbiters it is, of an option that has to be there.
pub(crate) fn me_in<'a>(matches: &ArgMatches<'a>) -> Result<ArbiterId, ValueFault<'a>>
    ensures ok { IfOk result (IsMe (first_value (found_of matches.now) (codes "me"))) }
    ensures err { IfErr result (λ fault. IsFirstMisuse (first_value (found_of matches.now)) me_faults (fault_words fault)) }
{
    let text = option_in(matches, "me")?;
    match me_of(text) {
        Some(who) => Ok(who),
        None => Err(ValueFault::Unfit(Wanted::Me, text)),
    }
}
