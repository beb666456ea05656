// What the words of the command line ask for, by rules that take no memory.
ghost use Rattle.std.specs.{Prelude.{◌≡◌, ◌≤◌, ℕ, [], ◌∷◌, map, codes, decimal, string_bytes}, Prelude.{IfSome, IfNone}};
ghost use Rattle.df_top.specs.{declared.mode.Mode.{Mode}, Mode.{Means, OneMeaning, task_of}};

use df_layout::Layout;
use df_lines::{u64_of, u128_of};
use df_pace::Pace;
use df_program::layout_named;

/// The rounds of the longest generated run.
const MOST_ROUNDS: u64 = 1_000_000;

/// The greatest number of a pace.
const MOST_PIECES: u64 = 64;

/// What the words of the command line ask for.
#[derive(Clone, Copy, Debug, PartialEq, Eq)]
pub enum Mode {
    /// Makes the file: `format LAYOUT CLUSTER`. A cluster of 0 has a meaning here; the making refuses it.
    Format { layout: Layout, cluster: u128 },
    /// Serves the script: `run`.
    Run,
    /// Opens the file, which mends it and raises its boot, and prints its summary: `recover`.
    Recover,
    /// Prints what a survey of the file finds, and writes nothing to it: `inspect`.
    Inspect,
    /// Opens the file, as `recover` does, and prints the blocks that fail in a tour of the scrubber: `scrub`.
    Scrub,
    /// Opens the file, as `recover` does, carries out a generated run of `count` rounds and prints what it did: `workload SEED COUNT`.
    Workload { seed: u64, count: u64 },
    /// Makes a file of version 1 one of version 2: `upgrade`.
    Upgrade,
    /// Serves the script with this work beside it: `paced SCRUB EVERY STEPS`.
    Paced { pace: Pace },
}

/// A file that is to be made.
#[derive(Clone, Copy, Debug, PartialEq, Eq)]
pub struct NewFile {
    /// Its layout.
    pub layout: Layout,
    /// Its cluster.
    pub cluster: u128,
}

/// What is to be done for a word.
#[derive(Clone, Copy, Debug, PartialEq, Eq)]
pub enum Task {
    /// This file is made.
    Make { file: NewFile },
    /// The file that is there is upgraded.
    Upgrade,
    /// The file that is there is opened or surveyed.
    Open,
}

/// What is to be done for what is asked for.
pub(crate) fn task_of(mode: Mode) -> Task
    ensures { result ≡ task_of mode }
{
    match mode {
        Mode::Format { layout, cluster } => Task::Make {
            file: NewFile { layout, cluster },
        },
        Mode::Upgrade => Task::Upgrade,
        Mode::Run
        | Mode::Recover
        | Mode::Inspect
        | Mode::Scrub
        | Mode::Workload { seed: _, count: _ }
        | Mode::Paced { pace: _ } => Task::Open,
    }
}

/// What the words ask for, or None where they have no meaning. LAYOUT is `small`, `large`, or the slots, the bytes of a
/// message, the clients, the bytes of a block and the blocks, in decimal with commas between them. CLUSTER is a number in
/// decimal below 2^128. SEED is one below 2^64, COUNT one from 1 to 1,000,000; SCRUB, EVERY and STEPS are at most 64. A number has
/// no zero before it, `0` itself aside.
pub fn mode_of(words: &[String]) -> Option<Mode>
    ensures found { IfSome result (Means (map string_bytes words.now)) }
    ensures none { IfNone result ((c : Mode) → Means (map string_bytes words.now) c → ⊥) }
{
    match words {
        [word] => plain_mode(word.as_str()),
        [word, one, two] => mode_with(word.as_str(), one.as_str(), two.as_str()),
        [word, scrub, every, steps] => paced_words(
            word.as_str(),
            scrub.as_str(),
            every.as_str(),
            steps.as_str(),
        ),
        _ => None,
    }
}

// What one word alone asks for.
fn plain_mode(word: &str) -> Option<Mode>
    ensures found { IfSome result (Means (word.now ∷ [])) }
    ensures none { IfNone result ((c : Mode) → Means (word.now ∷ []) c → ⊥) }
{
    if word == "run" {
        return Some(Mode::Run);
    }
    if word == "recover" {
        return Some(Mode::Recover);
    }
    if word == "inspect" {
        return Some(Mode::Inspect);
    }
    if word == "scrub" {
        return Some(Mode::Scrub);
    }
    if word == "upgrade" {
        Some(Mode::Upgrade)
    } else {
        None
    }
}

// What three words ask for.
fn mode_with(word: &str, one: &str, two: &str) -> Option<Mode>
    ensures found { IfSome result (Means (word.now ∷ one.now ∷ two.now ∷ [])) }
    ensures none { IfNone result ((c : Mode) → Means (word.now ∷ one.now ∷ two.now ∷ []) c → ⊥) }
{
    if word == "format" {
        return format_mode(one, two);
    }
    if word == "workload" {
        workload_mode(one, two)
    } else {
        None
    }
}

// What `workload` asks for with these words after it.
fn workload_mode(seed: &str, count: &str) -> Option<Mode>
    ensures found { IfSome result (Means (codes "workload" ∷ seed.now ∷ count.now ∷ [])) }
    ensures none { IfNone result ((c : Mode) → Means (codes "workload" ∷ seed.now ∷ count.now ∷ []) c → ⊥) }
{
    let seed = u64_of(seed.as_bytes())?;
    let count = u64_of(count.as_bytes())?;
    if count == 0 || count > MOST_ROUNDS {
        return None;
    }
    Some(Mode::Workload { seed, count })
}

// What four words ask for.
fn paced_words(word: &str, scrub: &str, every: &str, steps: &str) -> Option<Mode>
    ensures found { IfSome result (Means (word.now ∷ scrub.now ∷ every.now ∷ steps.now ∷ [])) }
    ensures none { IfNone result ((c : Mode) → Means (word.now ∷ scrub.now ∷ every.now ∷ steps.now ∷ []) c → ⊥) }
{
    if word == "paced" {
        paced_mode(scrub, every, steps)
    } else {
        None
    }
}

// What `paced` asks for with these words after it.
fn paced_mode(scrub: &str, every: &str, steps: &str) -> Option<Mode>
    ensures found { IfSome result (Means (codes "paced" ∷ scrub.now ∷ every.now ∷ steps.now ∷ [])) }
    ensures none { IfNone result ((c : Mode) → Means (codes "paced" ∷ scrub.now ∷ every.now ∷ steps.now ∷ []) c → ⊥) }
{
    let scrub = pieces_of(scrub)?;
    let every = pieces_of(every)?;
    let steps = pieces_of(steps)?;
    Some(Mode::Paced {
        pace: Pace {
            scrub,
            every,
            steps,
        },
    })
}

// The number of a pace that a word names.
fn pieces_of(word: &str) -> Option<u64>
    ensures found { IfSome result (λ n. word.now ≡ decimal n) }
    ensures most { IfSome result (λ n. n ≤ 64) }
    ensures none { IfNone result ((n : ℕ) → n ≤ 64 → word.now ≡ decimal n → ⊥) }
{
    let pieces = u64_of(word.as_bytes())?;
    if pieces > MOST_PIECES {
        return None;
    }
    Some(pieces)
}

// What `format` asks for with these words after it.
fn format_mode(name: &str, cluster: &str) -> Option<Mode>
    ensures found { IfSome result (Means (codes "format" ∷ name.now ∷ cluster.now ∷ [])) }
    ensures none { IfNone result ((c : Mode) → Means (codes "format" ∷ name.now ∷ cluster.now ∷ []) c → ⊥) }
{
    let layout = layout_named(name)?;
    let cluster = u128_of(cluster.as_bytes())?;
    Some(Mode::Format { layout, cluster })
}

/// Words ask for one thing at most.
pub fn words_have_one_meaning()
    ensures { OneMeaning }
{}
