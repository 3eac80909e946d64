//! The games of an input that are reported as they are read.

ghost use Rattle.std.specs.Prelude.{◌≡◌, IfOk, OnErr};
ghost use Rattle.answer_parts.specs.Printing.{OutputFails, Performs};
ghost use Rattle.move_msg.specs.TextLines.{ended};
ghost use Rattle.pgn_games.specs.Games.{GameRead};
ghost use Rattle.pgn_games.specs.Shown.{game_of, reading_of};
ghost use Rattle.pgn_teller.specs.Inside.Steps.{GoesOut, IsTextOf, MakesIn, Next, ReportsAllIn, ReportsOneIn, WritesLast, WritesText};
ghost use Rattle.pgn_teller.specs.Ratings.{RulesNoMore};
ghost use Rattle.pgn_teller.specs.Reports.{PrintsSums, ReportsPgnLines, counted_as, differs, is_written, pgn_fault_line, pgn_line, pgn_refused_line, pgn_sums_line, ruled_line, terms_of, unread_line};
ghost use Rattle.timeline.specs.Outsides.{AddsSome};

use crate::finding::Finding;
use crate::game_line::{Form, fault_line, game_line, refused_line, sums_line};
use crate::game_object::{Texts, put_fault, put_game, put_refused, put_sums};
use crate::rating::{GameRuler, Ruled};
use crate::sums::{Mark, Sums, one_more};
use answer_parts::print_unread;
use pgn_games::{Game, GameFault, GameResult, PgnReader, Reading};
use std::alloc::{AllocError, Global};
use system_io::{ReadFault, WriteFault};
use table_folder::FileRefusal;
use timeline::{Stream, System};

/// Reports games as they are ruled.
#[derive(Drop)]
pub struct GameReporter<R> {
    /// The allocator.
    pub alloc: Global,
    /// What rules the games.
    pub ruler: R,
    /// How lines are written.
    pub form: Form,
    /// Whether only games are reported whose result is another one than the verdict's.
    pub only_differing: bool,
}

/// The line of a game, with its line feed, and what counts of it.
#[derive(Drop)]
pub(crate) struct GameText {
    pub(crate) text: Vec<u8>,
    pub(crate) mark: Mark,
}

/// What came of the next game.
#[derive(Clone, Copy)]
pub(crate) enum Step {
    /// It is reported, and this counts of it.
    Reported(Mark),
    /// There is none.
    Ended,
    /// It isn't reported, and nothing more is.
    Cut,
}

/// The object of a game, with a line feed.
fn object_of_game(
    alloc: Global,
    number: u64,
    game: &Game,
    ruled: Option<Ruled>,
) -> Result<Vec<u8>, AllocError>
    ensures { IfOk result (λ text. text.items ≡ ended (pgn_line Form.Json number (game_of game.now) ruled)) }
{
    let texts = Texts::of(alloc, game)?;
    let mut text = Vec::new(alloc);
    match put_game(&mut text, number, game, &texts, ruled) {
        Ok(()) => {}
        Err(_) => return Err(AllocError),
    }
    text.push(b'\n')?;
    Ok(text)
}

/// The object of a game that isn't read, with a line feed.
fn object_of_fault(alloc: Global, number: u64, fault: &GameFault) -> Result<Vec<u8>, AllocError>
    ensures { IfOk result (λ text. text.items ≡ ended (pgn_fault_line Form.Json number fault.now)) }
{
    let mut text = Vec::new(alloc);
    match put_fault(&mut text, number, fault) {
        Ok(()) => {}
        Err(_) => return Err(AllocError),
    }
    text.push(b'\n')?;
    Ok(text)
}

/// The object of a game that needs a table whose file is refused, with a line feed.
fn object_of_refused(
    alloc: Global,
    number: u64,
    line: u64,
    refusal: &FileRefusal,
) -> Result<Vec<u8>, AllocError>
    ensures { IfOk result (λ text. text.items ≡ ended (pgn_refused_line Form.Json number line refusal.now)) }
{
    let mut text = Vec::new(alloc);
    match put_refused(&mut text, number, line, refusal) {
        Ok(()) => {}
        Err(_) => return Err(AllocError),
    }
    text.push(b'\n')?;
    Ok(text)
}

/// The object of the sums, with a line feed.
fn object_of_sums(alloc: Global, sums: &Sums) -> Result<Vec<u8>, AllocError>
    ensures { IfOk result (λ text. text.items ≡ ended (pgn_sums_line Form.Json sums.now)) }
{
    let mut text = Vec::new(alloc);
    match put_sums(&mut text, sums) {
        Ok(()) => {}
        Err(_) => return Err(AllocError),
    }
    text.push(b'\n')?;
    Ok(text)
}

/// What counts of a game, by its first verdict and the result that stands in the file.
fn counted_as(ruled: Option<Ruled>, stands: GameResult) -> Mark
    ensures { result ≡ counted_as ruled stands }
{
    match ruled {
        Some(_) => Mark::Ruled(Finding::of(ruled, stands)),
        None => Mark::Open,
    }
}

/// Whether a game with this mark has a result that isn't the verdict's.
fn differs(mark: Mark) -> bool
    ensures { result ≡ differs mark }
{
    match mark {
        Mark::Ruled(Finding::Differs) => true,
        _ => false,
    }
}

/// Writes a text, and lets it go out.
fn write_out<S: System>(
    system: &S,
    timeline: &mut S::Timeline,
    text: &[u8],
) -> Result<(), WriteFault>
    ensures made { AddsSome (S.outside system.now) timeline.old timeline.new (Performs (GoesOut text.now) result) }
    ensures cause { OnErr result (OutputFails (S.outside system.now)) }
{
    match system.write(timeline, Stream::Output, text) {
        Ok(()) => system.flush(timeline, Stream::Output),
        Err(fault) => Err(fault),
    }
}

/// Writes a last text, and returns what it comes to.
fn write_last<S: System>(
    system: &S,
    timeline: &mut S::Timeline,
    text: &[u8],
    well: bool,
) -> Result<bool, WriteFault>
    ensures made { AddsSome (S.outside system.now) timeline.old timeline.new (Performs (WritesLast text.now well) result) }
    ensures cause { OnErr result (OutputFails (S.outside system.now)) }
{
    match system.write(timeline, Stream::Output, text) {
        Ok(()) => Ok(well),
        Err(fault) => Err(fault),
    }
}

impl<R> GameReporter<R> {
    /// The line of a game.
    fn text_of_game(
        &self,
        number: u64,
        game: &Game,
        ruled: Option<Ruled>,
    ) -> Result<Vec<u8>, AllocError>
        ensures { IfOk result (λ text. text.items ≡ ended (pgn_line self.now.form number (game_of game.now) ruled)) }
    {
        match self.form {
            Form::Words => {
                let line = game_line(number, game.moves.len(), ruled, game.result);
                line.into_text(self.alloc)
            }
            Form::Json => object_of_game(self.alloc, number, game, ruled),
        }
    }

    /// The line of a game that isn't read.
    fn text_of_fault(&self, number: u64, fault: &GameFault) -> Result<Vec<u8>, AllocError>
        ensures { IfOk result (λ text. text.items ≡ ended (pgn_fault_line self.now.form number fault.now)) }
    {
        match self.form {
            Form::Words => fault_line(number, fault).into_text(self.alloc),
            Form::Json => object_of_fault(self.alloc, number, fault),
        }
    }

    /// The line of a game that begins on this line of the file and needs a table whose file is refused.
    fn text_of_refused(
        &self,
        number: u64,
        line: u64,
        refusal: &FileRefusal,
    ) -> Result<Vec<u8>, AllocError>
        ensures { IfOk result (λ text. text.items ≡ ended (pgn_refused_line self.now.form number line refusal.now)) }
    {
        match self.form {
            Form::Words => refused_line(number, refusal).into_text(self.alloc),
            Form::Json => object_of_refused(self.alloc, number, line, refusal),
        }
    }

    /// The line of a game that is ruled so.
    fn ruled_text(
        &self,
        number: u64,
        game: &Game,
        ruling: Result<Option<Ruled>, FileRefusal>,
    ) -> Result<GameText, AllocError>
        ensures { IfOk result (IsTextOf (ruled_line (terms_of self.now) number (game_of game.now) ruling)) }
    {
        match ruling {
            Ok(ruled) => {
                let text = self.text_of_game(number, game, ruled)?;
                let mark = counted_as(ruled, game.result);
                Ok(GameText { text, mark })
            }
            Err(refusal) => {
                let text = self.text_of_refused(number, game.line, &refusal)?;
                Ok(GameText {
                    text,
                    mark: Mark::AtFault,
                })
            }
        }
    }

    /// The line of a game that isn't read.
    fn unread_text(&self, number: u64, fault: &GameFault) -> Result<GameText, AllocError>
        ensures { IfOk result (IsTextOf (unread_line (terms_of self.now) number fault.now)) }
    {
        let text = self.text_of_fault(number, fault)?;
        let mark = Mark::AtFault;
        Ok(GameText { text, mark })
    }

    /// Whether a game with this mark is written.
    fn writes(&self, mark: Mark) -> bool
        ensures { result ≡ is_written self.now.only_differing mark }
    {
        !self.only_differing || differs(mark)
    }

    /// Writes the line of a game, where it is written, and lets it go out.
    fn write_line<S: System>(
        &self,
        system: &S,
        timeline: &mut S::Timeline,
        line: &GameText,
    ) -> Result<Step, WriteFault>
        ensures made { AddsSome (S.outside system.now) timeline.old timeline.new (Performs (WritesText self.now.only_differing line.now) result) }
        ensures cause { OnErr result (OutputFails (S.outside system.now)) }
    {
        let mark = line.mark;
        if self.writes(mark) {
            match write_out(system, timeline, &line.text) {
                Ok(()) => Ok(Step::Reported(mark)),
                Err(fault) => Err(fault),
            }
        } else {
            Ok(Step::Reported(mark))
        }
    }

    /// The line of the sums.
    fn text_of_sums(&self, sums: &Sums) -> Result<Vec<u8>, AllocError>
        ensures { IfOk result (λ text. text.items ≡ ended (pgn_sums_line self.now.form sums.now)) }
    {
        match self.form {
            Form::Words => sums_line(sums).into_text(self.alloc),
            Form::Json => object_of_sums(self.alloc, sums),
        }
    }

    /// Writes the sums in one line, and returns whether no game was at fault. Where memory for the line is refused, it is `refused memory`,
    /// and the result is false.
    fn write_sums<S: System>(
        &self,
        system: &S,
        timeline: &mut S::Timeline,
        sums: &Sums,
    ) -> Result<bool, WriteFault>
        ensures made { AddsSome (S.outside system.now) timeline.old timeline.new (Performs (PrintsSums self.now.form sums.now) result) }
        ensures cause { OnErr result (OutputFails (S.outside system.now)) }
    {
        match self.text_of_sums(sums) {
            Ok(text) => write_last(system, timeline, &text, sums.faults == 0),
            Err(_) => print_unread(system, timeline, ReadFault::OutOfMemory, false),
        }
    }
}

/// The line of a game that is read.
fn judged_text<S: System, R: GameRuler<S>>(
    reporter: &mut GameReporter<R>,
    system: &S,
    timeline: &mut S::Timeline,
    number: u64,
    game: &Game,
) -> Result<GameText, AllocError>
    requires { R.reads_from reporter.old.ruler system.now }
    ensures made { MakesIn (S.outside system.now) R.rules R.known reporter.old reporter.new number (GameRead (game_of game.now)) timeline.old timeline.new result }
    ensures same { terms_of reporter.new ≡ terms_of reporter.old }
    ensures rules { RulesNoMore (R.rules reporter.old.ruler) (R.rules reporter.new.ruler) }
    ensures still { R.reads_from reporter.new.ruler system.now }
{
    match reporter.ruler.rule(reporter.alloc, system, timeline, game) {
        Ok(ruling) => reporter.ruled_text(number, game, ruling),
        Err(e) => Err(e),
    }
}

/// The line of a game that is read, or isn't.
fn text_of_reading<S: System, R: GameRuler<S>>(
    reporter: &mut GameReporter<R>,
    system: &S,
    timeline: &mut S::Timeline,
    number: u64,
    reading: &Reading,
) -> Result<GameText, AllocError>
    requires { R.reads_from reporter.old.ruler system.now }
    ensures made { MakesIn (S.outside system.now) R.rules R.known reporter.old reporter.new number (reading_of reading.now) timeline.old timeline.new result }
    ensures same { terms_of reporter.new ≡ terms_of reporter.old }
    ensures rules { RulesNoMore (R.rules reporter.old.ruler) (R.rules reporter.new.ruler) }
    ensures still { R.reads_from reporter.new.ruler system.now }
{
    match reading {
        Reading::Game(game) => judged_text(reporter, system, timeline, number, game),
        Reading::Fault(fault) => reporter.unread_text(number, fault),
    }
}

/// Reports a game that is read, or isn't.
fn report_reading<S: System, R: GameRuler<S>>(
    reporter: &mut GameReporter<R>,
    system: &S,
    timeline: &mut S::Timeline,
    number: u64,
    reading: &Reading,
) -> Result<Step, WriteFault>
    requires { R.reads_from reporter.old.ruler system.now }
    ensures made { ReportsOneIn (S.outside system.now) R.rules R.known reporter.old reporter.new number (reading_of reading.now) timeline.old timeline.new result }
    ensures cause { OnErr result (OutputFails (S.outside system.now)) }
    ensures same { terms_of reporter.new ≡ terms_of reporter.old }
    ensures rules { RulesNoMore (R.rules reporter.old.ruler) (R.rules reporter.new.ruler) }
    ensures still { R.reads_from reporter.new.ruler system.now }
{
    match text_of_reading(reporter, system, timeline, number, reading) {
        Ok(line) => reporter.write_line(system, timeline, &line),
        Err(_) => print_unread(system, timeline, ReadFault::OutOfMemory, Step::Cut),
    }
}

/// Reads the next game of an input, and reports it.
fn report_next<S: System, R: GameRuler<S>>(
    reporter: &mut GameReporter<R>,
    system: &S,
    timeline: &mut S::Timeline,
    lines: &mut S::Lines,
    at: &mut PgnReader,
    number: u64,
) -> Result<Step, WriteFault>
    requires { R.reads_from reporter.old.ruler system.now }
    ensures made { Next (S.outside system.now) R.rules R.known reporter.old reporter.new number lines.old lines.new at.old at.new timeline.old timeline.new result }
    ensures cause { OnErr result (OutputFails (S.outside system.now)) }
    ensures same { terms_of reporter.new ≡ terms_of reporter.old }
    ensures rules { RulesNoMore (R.rules reporter.old.ruler) (R.rules reporter.new.ruler) }
    ensures still { R.reads_from reporter.new.ruler system.now }
    ensures fails { ((S.outside system.now).lines lines.new).fails → ((S.outside system.now).lines lines.old).fails }
{
    match at.next_game(system, timeline, lines) {
        Ok(Some(reading)) => report_reading(reporter, system, timeline, number, &reading),
        Ok(None) => Ok(Step::Ended),
        Err(fault) => print_unread(system, timeline, fault, Step::Cut),
    }
}

/// Reports the games of lines in turn, and returns how many there are. None where no more could be read or reported before their end,
/// which is printed last.
fn report_games<S: System, R: GameRuler<S>>(
    reporter: &mut GameReporter<R>,
    system: &S,
    timeline: &mut S::Timeline,
    lines: &mut S::Lines,
) -> Result<Option<Sums>, WriteFault>
    requires { R.reads_from reporter.old.ruler system.now }
    ensures made { ReportsAllIn (S.outside system.now) R.rules R.known reporter.old lines.old timeline.old timeline.new result }
    ensures cause { OnErr result (OutputFails (S.outside system.now)) }
    ensures same { terms_of reporter.new ≡ terms_of reporter.old }
{
    let mut reader = PgnReader::new(reporter.alloc);
    let mut sums = Sums::none();
    for _ in 0..u64::MAX {
        let number = one_more(sums.games);
        match report_next(reporter, system, timeline, lines, &mut reader, number) {
            Ok(Step::Reported(mark)) => sums = sums.with(mark),
            Ok(Step::Ended) => return Ok(Some(sums)),
            Ok(Step::Cut) => return Ok(None),
            Err(fault) => return Err(fault),
        }
    }
    match print_unread(system, timeline, ReadFault::OutOfMemory, Step::Cut) {
        Ok(_) => Ok(None),
        Err(fault) => Err(fault),
    }
}

/// Reports the games of lines of which none is read yet, a line each as they are read, and then the sums in one line. Each line has gone out
/// before more is read. Returns whether all games are reported and none is at fault.
///
/// Where memory is refused, the line `refused memory` follows the lines before it, and where the lines can't be read further,
/// `refused files` (after 2^64 - 1 games `refused memory`); nothing follows then. Where memory for the sums is refused, `refused memory`
/// stands in their place. The error comes only where the output failed. The lines before are whole then, of the last a front is written, and
/// nothing more is read.
pub fn report<S: System, R: GameRuler<S>>(
    reporter: &mut GameReporter<R>,
    system: &S,
    timeline: &mut S::Timeline,
    lines: &mut S::Lines,
) -> Result<bool, WriteFault>
    requires { R.reads_from reporter.old.ruler system.now }
    ensures made { ReportsPgnLines (S.outside system.now) R.rules R.known reporter.old lines.old timeline.old timeline.new result }
    ensures cause { OnErr result (OutputFails (S.outside system.now)) }
{
    match report_games(reporter, system, timeline, lines) {
        Ok(Some(sums)) => reporter.write_sums(system, timeline, &sums),
        Ok(None) => Ok(false),
        Err(fault) => Err(fault),
    }
}
