// The words of a command line, as each program takes them: its paths first, and then what is to be done.
ghost use Rattle.std.specs.Prelude.{◌≡◌, ◌∷◌, [], true, false, codes, drop, map, string_bytes, IfOk};

use df_base::OutOfMemory;
use std::alloc::Global;
use std::env;
use std::io::ErrorKind;

/// The words after the program's name, from which the paths are taken.
#[derive(Drop)]
pub struct Words {
    words: Vec<String>,
    // Whether a path was asked for when no word was left.
    lacks: bool,
}

impl Words {
    /// The words of this run. Where one of them isn't UTF-8 they have no meaning, as if there were none.
    pub fn of(rt: &HostRuntime) -> Result<Words, OutOfMemory> {
        let args = match env::args(rt) {
            Ok(args) => args,
            Err(error) => {
                if error.kind() == ErrorKind::OutOfMemory {
                    return Err(OutOfMemory);
                }
                return Ok(Words::over(Vec::new(rt.alloc())));
            }
        };
        match args.skip(1).collect(rt.alloc()) {
            Ok(words) => Ok(Words::over(words)),
            Err(_) => Err(OutOfMemory),
        }
    }

    // No path is taken yet.
    fn over(words: Vec<String>) -> Words {
        Words {
            words,
            lacks: false,
        }
    }

    /// Takes the first word off, which is a path. Where there is none the path is empty, which is no file's.
    pub fn take_path(&mut self, alloc: Global) -> String
        ensures left { self.new.words.items ≡ drop 1 self.old.words.items }
        ensures missing { self.old.words.items ≡ [] → self.new.lacks ≡ true }
        ensures there { (self.old.words.items ≡ [] → ⊥) → self.new.lacks ≡ self.old.lacks }
    {
        if self.words.is_empty() {
            self.lacks = true;
            String::new(alloc)
        } else {
            self.words.remove(0)
        }
    }

    /// The words after the paths; where a path is missing, the single word `-`, which has no meaning in any program.
    pub fn others(self, alloc: Global) -> Result<Vec<String>, OutOfMemory>
        ensures whole { self.lacks ≡ false → IfOk result (λ others. others ≡ self.words) }
        ensures dash { self.lacks ≡ true → IfOk result (λ others. map string_bytes others.items ≡ codes "-" ∷ []) }
    {
        if self.lacks {
            return dash(alloc);
        }
        Ok(self.words)
    }
}

// The single word `-`.
fn dash(alloc: Global) -> Result<Vec<String>, OutOfMemory>
    ensures { IfOk result (λ words. map string_bytes words.items ≡ codes "-" ∷ []) }
{
    let Ok(word) = String::from_str(alloc, "-") else {
        return Err(OutOfMemory);
    };
    match Vec::from_array(alloc, [word]) {
        Ok(words) => Ok(words),
        Err(_) => Err(OutOfMemory),
    }
}
