// The words behind a program's name, what is said of words that are wrong, and the status that a program then ends with.
ghost use Rattle.std.specs.Prelude.{◌≡◌, ◌≤◌, true, cond, drop, is_err, IfOk, IfSome, MatchResult};
ghost use Rattle.std.specs.Process.{exit_status};
ghost use Rattle.std.specs.Vec.Iter.{into_iter_items};
ghost use Rattle.command_line.specs.Words.{first_number, Unread};

use anyhow::anyhow;
use std::alloc::{AllocError, Global};
use std::env::Args;
use std::io;
use std::process::ExitCode;
use text::number::read_number;

// The word that asks how a program is used.
pub(crate) const HELP: &str = "--help";

// The words behind the program's name.
pub fn behind_name(heap: Global, args: Args) -> Result<Vec<String>, AllocError>
    ensures { IfOk result (λ words. words.items ≡ drop 1 (into_iter_items args)) }
{
    args.skip(1).collect(heap)
}

// The arguments that were read; none if one of them isn't UTF-8, and so no word that is known.
pub fn if_utf8<T: Drop>(read: io::Result<T>) -> io::Result<Option<T>>
    ensures { MatchResult read (λ args. result ≡ Ok (Some args)) (λ e. Unread e result) }
{
    match read {
        Ok(args) => Ok(Some(args)),
        Err(e) if e.kind() == io::ErrorKind::InvalidData => Ok(None),
        Err(e) => Err(e),
    }
}

// Says on standard output how the program is used.
pub fn print_usage(rt: &HostRuntime, usage: &str) -> anyhow::Result<ExitCode>
    ensures { IfOk result (λ code. exit_status code ≡ 0) }
{
    rt.println(usage)?;
    Ok(ExitCode::SUCCESS)
}

// Wrong words end with the usage, and nothing more is said.
pub fn refuse(rt: &HostRuntime, usage: &str) -> ExitCode
    ensures { exit_status result ≡ 1 }
{
    status_of(refuse_words(rt, usage))
}

// Says on standard error how the program is used, where the words were wrong.
pub fn refuse_words(rt: &HostRuntime, usage: &str) -> anyhow::Result<()>
    ensures { is_err result ≡ true }
{
    rt.eprintln(usage)?;
    Err(anyhow!("wrong words on the command line"))
}

// The status of what was said already: `main` would print an error once more.
pub fn status_of(said: anyhow::Result<()>) -> ExitCode
    ensures { exit_status result ≡ cond (is_err said) 1 0 }
{
    match said {
        Ok(()) => ExitCode::SUCCESS,
        Err(_) => ExitCode::FAILURE,
    }
}

// The number that a word gives, between two others, where none was given before.
pub(crate) fn first_number<N: Copy>(
    before: Option<N>,
    least: u64,
    greatest: u64,
    word: &str,
) -> Option<u64>
    ensures value { result ≡ first_number before least greatest word.now }
    ensures bound { IfSome result (λ n. n ≤ greatest) }
{
    if before.is_some() {
        return None;
    }
    read_number(word, least, greatest)
}

#[cfg(test)]
mod tests {
    use super::*;
    use std::test::Fail;

    #[test]
    fn words_behind_a_name(rt: HostRuntime) -> Result<(), Fail> {
        let mut args = Vec::new(rt.alloc());
        args.push(String::from_str(rt.alloc(), "send_pages")?)?;
        args.push(String::from_str(rt.alloc(), "--rounds")?)?;
        args.push(String::from_str(rt.alloc(), "2")?)?;
        let words = behind_name(rt.alloc(), args.into_iter())?;
        assert_eq!(rt; words.len(), 2);
        assert_eq!(rt; words[0].as_str(), "--rounds");
        assert_eq!(rt; words[1].as_str(), "2");
        Ok(())
    }
}
