// A run that is told: its script, what it is to print, and how it is to end.
use crate::trouble::Trouble;
use crate::words::add_script_line;
use df_base::MemorySource;
use std::alloc::Global;

/// A text that a run may print, and how it ends then.
#[derive(Drop)]
pub(crate) struct Wanted {
    pub text: String,
    /// Whether more may follow.
    pub more: bool,
    pub status: String,
}

impl Wanted {
    fn new(alloc: Global) -> Result<Wanted, Trouble> {
        Ok(Wanted {
            text: String::new(alloc),
            more: false,
            status: String::from_str(alloc, "Done")?,
        })
    }

    fn add_line(&mut self, line: &str) -> Result<(), Trouble> {
        if self.more {
            return Err(Trouble::NoMeaning("whatever else is printed comes last"));
        }
        if line == "..." {
            self.more = true;
            return Ok(());
        }
        match line.strip_suffix('\\') {
            Some(front) => self.text.push_str(front)?,
            None => {
                self.text.push_str(line)?;
                self.text.push('\n')?;
            }
        }
        Ok(())
    }

    // Whether a run that printed this and ended so is the one.
    fn is(&self, ended: &Ended) -> bool {
        let text = self.text.as_bytes();
        let printed = ended.text.as_slice();
        let is_text = if self.more {
            printed.starts_with(text)
        } else {
            printed == text
        };
        is_text && ended.status.as_str() == self.status.as_str()
    }
}

/// What a run printed, and how it ended.
#[derive(Drop)]
pub(crate) struct Ended {
    pub text: Vec<u8>,
    pub status: String,
}

/// A run: the program with its words, and all that is said of it. The last of the texts is the one that is being told.
#[derive(Drop)]
pub(crate) struct Run {
    pub at: u64,
    pub words: Vec<String>,
    pub script: String,
    pub source_fails: Vec<u64>,
    pub sink_fails: Vec<u64>,
    /// Whether something else comes than what is told.
    pub is_wrong: bool,
    others: Vec<Wanted>,
    wanted: Wanted,
}

impl Run {
    /// A run of these words, of which nothing more is said yet.
    pub(crate) fn new(alloc: Global, at: u64, words: Vec<String>) -> Result<Run, Trouble> {
        Ok(Run {
            at,
            words,
            script: String::new(alloc),
            source_fails: Vec::new(alloc),
            sink_fails: Vec::new(alloc),
            is_wrong: false,
            others: Vec::new(alloc),
            wanted: Wanted::new(alloc)?,
        })
    }

    /// What its script is read from.
    pub(crate) fn source(&self, alloc: Global) -> Result<MemorySource, Trouble> {
        let script = Vec::from_slice(alloc, self.script.as_bytes())?;
        let fails = Vec::from_slice(alloc, &self.source_fails)?;
        Ok(MemorySource::new(script, fails))
    }

    /// A line of the script.
    pub(crate) fn add_script(&mut self, line: &str) -> Result<(), Trouble> {
        add_script_line(&mut self.script, line)
    }

    /// A line that is printed.
    pub(crate) fn add_printed(&mut self, line: &str) -> Result<(), Trouble> {
        self.wanted.add_line(line)
    }

    /// How it ends.
    pub(crate) fn end(&mut self, alloc: Global, status: &str) -> Result<(), Trouble> {
        self.wanted.status = String::from_str(alloc, status)?;
        Ok(())
    }

    /// What is told from here on will do in place of what was told.
    pub(crate) fn begin_other(&mut self, alloc: Global) -> Result<(), Trouble> {
        let told = std::mem::replace(&mut self.wanted, Wanted::new(alloc)?);
        self.others.push(told)?;
        Ok(())
    }

    /// Whether it may print this and end so.
    pub(crate) fn wants(&self, ended: &Ended) -> bool {
        self.wanted.is(ended) || self.others.iter().any(|wanted| wanted.is(ended))
    }

    /// How many lines it is to print.
    pub(crate) fn answers(&self) -> u64 {
        let lines = self
            .wanted
            .text
            .as_bytes()
            .iter()
            .filter(|byte| **byte == b'\n');
        lines.count() as u64
    }
}
