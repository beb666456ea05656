// The player: it takes one line after the other, runs what is told, and keeps what didn't come as it was said.
use crate::case::{act, holds, is_said, numbers};
use crate::definitions::{Definitions, unfold_each};
use crate::disks::Disks;
use crate::lines::{Line, lines_of};
use crate::numbers::number;
use crate::programs::{is_program, run_program};
use crate::running::{Ended, Run};
use crate::trouble::Trouble;
use crate::words::words_of;
use std::alloc::Global;

// No transcript has more lines than this, those of its definitions counted each time.
const MOST_LINES: u64 = 10_000_000;

/// What came of a transcript.
#[derive(Drop)]
pub struct Played {
    pub cases: u64,
    /// Lines that were printed, and other things that were said, as they should.
    pub answers: u64,
    /// How many things weren't so.
    pub failures: u64,
    /// What is told of them.
    pub told: String,
}

#[derive(Drop)]
struct Player {
    played: Played,
    title: String,
    definitions: Definitions,
    disks: Disks,
    run: Option<Run>,
    source_fails: Vec<u64>,
    sink_fails: Vec<u64>,
}

impl Player {
    fn new(alloc: Global) -> Player {
        Player {
            played: Played {
                cases: 0,
                answers: 0,
                failures: 0,
                told: String::new(alloc),
            },
            title: String::new(alloc),
            definitions: Definitions::new(alloc),
            disks: Disks::new(alloc),
            run: None,
            source_fails: Vec::new(alloc),
            sink_fails: Vec::new(alloc),
        }
    }

    // Tells what isn't so at a line.
    fn fail(&mut self, alloc: Global, at: u64, what: &str) -> Result<(), Trouble> {
        self.played.failures = self.played.failures.saturating_add(1);
        let title = self.title.as_str();
        let line = format!(in alloc; "line {at}, {title}: {what}\n")?;
        self.played.told.push_str(line.as_str())?;
        Ok(())
    }

    fn succeed(&mut self, count: u64) {
        self.played.answers = self.played.answers.saturating_add(count);
    }

    // Tells what a run printed in place of what was said.
    fn tell_run(&mut self, alloc: Global, at: u64, ended: &Ended) -> Result<(), Trouble> {
        let status = ended.status.as_str();
        let what = format!(in alloc; "ended {status}, and printed")?;
        self.fail(alloc, at, what.as_str())?;
        let printed = str::from_utf8(ended.text.as_slice()).unwrap_or("(no text)");
        self.played.told.push_str(printed)?;
        Ok(())
    }

    // Runs what was told, if a run was.
    fn finish_run(&mut self, alloc: Global) -> Result<(), Trouble> {
        let Some(run) = self.run.take() else {
            return Ok(());
        };
        let ended = match run_program(alloc, &mut self.disks, &run) {
            Ok(ended) => ended,
            Err(Trouble::NoMeaning(what)) => return self.fail(alloc, run.at, what),
            Err(Trouble::OutOfMemory) => return Err(Trouble::OutOfMemory),
        };
        if run.wants(&ended) != run.is_wrong {
            self.succeed(run.answers().saturating_add(1));
            return Ok(());
        }
        self.tell_run(alloc, run.at, &ended)
    }

    // Begins to tell a run.
    fn begin_run(&mut self, alloc: Global, at: u64, words: Vec<String>) -> Result<(), Trouble> {
        let mut run = Run::new(alloc, at, words)?;
        run.source_fails = std::mem::replace(&mut self.source_fails, Vec::new(alloc));
        run.sink_fails = std::mem::replace(&mut self.sink_fails, Vec::new(alloc));
        self.run = Some(run);
        Ok(())
    }

    // A new case.
    fn begin_case(&mut self, alloc: Global, title: &str) -> Result<(), Trouble> {
        self.played.cases = self.played.cases.saturating_add(1);
        self.title = String::from_str(alloc, title)?;
        self.disks = Disks::new(alloc);
        self.source_fails = Vec::new(alloc);
        self.sink_fails = Vec::new(alloc);
        Ok(())
    }

    // A line that says more of the run that is told, if it is one.
    fn tell(&mut self, alloc: Global, text: &str) -> Result<bool, Trouble> {
        let Some(run) = self.run.as_mut() else {
            return Ok(false);
        };
        if let Some(line) = text.strip_prefix("< ") {
            run.add_script(line)?;
        } else if text == "<" {
            run.add_script("")?;
        } else if let Some(line) = text.strip_prefix("> ") {
            run.add_printed(line)?;
        } else if text == "or" {
            run.begin_other(alloc)?;
        } else if text == "wrong" {
            run.is_wrong = true;
        } else if let Some(status) = text.strip_prefix("ends ") {
            run.end(alloc, status)?;
        } else {
            return Ok(false);
        }
        Ok(true)
    }

    // A line that stands for others, if it is one.
    fn unfold(
        &mut self,
        alloc: Global,
        at: u64,
        words: &[String],
        ahead: &mut Vec<Line>,
    ) -> Result<bool, Trouble> {
        let [first, rest @ ..] = words else {
            return Ok(false);
        };
        match (first.as_str(), rest) {
            ("define", _) => self.definitions.take(alloc, rest, ahead)?,
            ("do", _) => self.definitions.unfold(alloc, rest, ahead)?,
            ("each", [from, to, rest @ ..]) => {
                let span = (number(from.as_str())?, number(to.as_str())?);
                unfold_each(alloc, at, span, rest, ahead)?;
            }
            _ => return Ok(false),
        }
        Ok(true)
    }

    // A line that says what is so, or what isn't.
    fn say(
        &mut self,
        alloc: Global,
        at: u64,
        words: &[String],
        is_so: bool,
    ) -> Result<(), Trouble> {
        let [said, rest @ ..] = words else {
            return Err(Trouble::NoMeaning("nothing is said"));
        };
        if holds(alloc, &mut self.disks, said.as_str(), rest)? == is_so {
            self.succeed(1);
            return Ok(());
        }
        self.fail(alloc, at, "that isn't so")
    }

    // A line that acts, or says what is so.
    fn act(&mut self, alloc: Global, at: u64, words: &[String]) -> Result<(), Trouble> {
        let [first, rest @ ..] = words else {
            return Ok(());
        };
        match first.as_str() {
            "source" => self.source_fails = numbers(alloc, rest)?,
            "sink" => self.sink_fails = numbers(alloc, rest)?,
            "wrong" => self.say(alloc, at, rest, false)?,
            said if is_said(said) => self.say(alloc, at, words, true)?,
            other => act(alloc, &mut self.disks, other, rest)?,
        }
        Ok(())
    }

    // A line that tells nothing more of a run.
    fn turn(
        &mut self,
        alloc: Global,
        at: u64,
        text: &str,
        ahead: &mut Vec<Line>,
    ) -> Result<(), Trouble> {
        let words = words_of(alloc, text)?;
        if self.unfold(alloc, at, &words, ahead)? {
            return Ok(());
        }
        self.finish_run(alloc)?;
        match words.first() {
            Some(first) if is_program(first.as_str()) => self.begin_run(alloc, at, words),
            _ => self.act(alloc, at, &words),
        }
    }

    // One line.
    fn take(&mut self, alloc: Global, line: &Line, ahead: &mut Vec<Line>) -> Result<(), Trouble> {
        let text = line.full(alloc)?;
        let text = text.as_str();
        if text.is_empty() || text.starts_with('#') {
            return Ok(());
        }
        if let Some(title) = text.strip_prefix("== ") {
            self.finish_run(alloc)?;
            return self.begin_case(alloc, title);
        }
        if self.tell(alloc, text)? {
            return Ok(());
        }
        self.turn(alloc, line.number, text, ahead)
    }
}

/// Plays a transcript. Memory alone may be wanting.
pub fn play(alloc: Global, text: &str) -> Result<Played, Trouble> {
    let mut player = Player::new(alloc);
    let mut ahead = lines_of(alloc, text)?;
    for _ in 0..MOST_LINES {
        let Some(line) = ahead.pop() else {
            break;
        };
        match player.take(alloc, &line, &mut ahead) {
            Ok(()) => {}
            Err(Trouble::NoMeaning(what)) => player.fail(alloc, line.number, what)?,
            Err(Trouble::OutOfMemory) => return Err(Trouble::OutOfMemory),
        }
    }
    player.finish_run(alloc)?;
    let Player { played, .. } = player;
    Ok(played)
}
