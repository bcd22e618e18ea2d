// What words ask for.
ghost use Rattle.std.specs.Prelude.{◌≡◌, map, string_bytes};
ghost use Rattle.pond_program.specs.Tasks.{task_of};

/// What the words of a call ask the program for.
#[derive(Clone, Copy, Debug, PartialEq, Eq)]
pub enum Task {
    /// The script that the source gives is run.
    Run,
    /// Nothing: the words are none that the program knows.
    Usage,
}

/// The task that words ask for. They are all words behind the program's name.
pub fn wanted(words: &[String]) -> Task
    ensures { result ≡ task_of (map string_bytes words.now) }
{
    match words {
        [word] => {
            if word.as_str() == "run" {
                Task::Run
            } else {
                Task::Usage
            }
        }
        _ => Task::Usage,
    }
}
