// The run over the words of the call and the whole input: lines in, replies out.
ghost use Rattle.std.specs.Prelude.{◌≡◌, [], map, string_bytes};
ghost use Rattle.std.specs.IoError.{error_kind};
ghost use Rattle.std.specs.declared.io.ErrorKind.TheVariants.{OutOfMemory};
ghost use Rattle.si_steps.specs.Runs.{a_word, a_line};
ghost use Rattle.si_state.specs.States.{empty_state};
ghost use Rattle.si_steps.specs.Limits.{AllowsLimits};
ghost use Rattle.si_steps.specs.Settings.{setting_of};
ghost use Rattle.si_io.specs.Shown.{SourceShown, KeepsFiles};
ghost use Rattle.si_session.specs.Session.{IsNewSession, around};
ghost use Rattle.si_serve.specs.Lines.{held_of, limit_of};
ghost use Rattle.si_serve.specs.Serve.{AnswersWords, ServesAsSaid, ServesAsked, IsFaultlessWithRoom, IsFaultlessUnlessCounted, HasCauses, WritesUsage, devices};
ghost use Rattle.si_serve.specs.Words.{asked_of};
ghost use Rattle.si_serve.specs.declared.status.Status.TheVariants.{Memory};
ghost use Rattle.si_serve.specs.Progress.{Judges, ActsOrStops, LoadsOrStops, FeedsOrStops, ClosesOrStops};

use crate::lines::{Pending, line_feed};
use crate::status::{Status, Stop};
use crate::words::{WordFault, is_strict, read_words};
use clap::ArgMatches;
use si_io::{Library, Sink, Source, write_all};
use si_session::{Limits, Session, Stepped};
use std::alloc::Global;
use std::io::{Error, ErrorKind};

/// Bytes that one call reads at most.
const CHUNK: usize = 4096;

/// Reads the words as `stindex [--strict] [FILE]...`, loads the files, reads the input to its end,
/// line by line, and writes the reply to each. Files come from the library. Words of which at most
/// one is `--strict`, and no other begins with `-`, are never declined.
///
/// After as many bytes as a session may have it reads no more.
pub fn serve<S: Source, K: Sink, L: Library>(
    alloc: Global,
    words: &[String],
    limits: &Limits,
    source: &mut S,
    sink: &mut K,
    library: &mut L,
) -> Status
    requires { AllowsLimits limits.now }
    // The words were declined, or served.
    ensures answers { AnswersWords limits.now (map string_bytes words.entry.now) result
        (devices (S.shown source.old) (K.shown sink.old) (L.shown library.old))
        (devices (S.shown source.new) (K.shown sink.new) (L.shown library.new)) }
    // Words of that form are served as they read.
    ensures plain { ServesAsSaid limits.now (map string_bytes words.entry.now) result
        (devices (S.shown source.old) (K.shown sink.old) (L.shown library.old))
        (devices (S.shown source.new) (K.shown sink.new) (L.shown library.new)) }
    // The library's files stay.
    ensures library { KeepsFiles (L.shown library.old) (L.shown library.new) }
    // Where a fault of the source or the sink ends the run, it was counted, and no other one was.
    ensures causes { HasCauses result (S.shown source.old) (S.shown source.new)
        (K.shown sink.old) (K.shown sink.new) }
    // None ends it where the source can't fail, and the sink has room.
    ensures sure { IsFaultlessWithRoom limits.now (map string_bytes words.entry.now) result
        (devices (S.shown source.old) (K.shown sink.old) (L.shown library.old)) }
    // None ends it where neither counted one.
    ensures faultless { IsFaultlessUnlessCounted result
        (devices (S.shown source.old) (K.shown sink.old) (L.shown library.old))
        (devices (S.shown source.new) (K.shown sink.new) (L.shown library.new)) }
{
    match read_words(alloc, words) {
        Ok(matches) => start(alloc, &matches, limits, source, sink, library),
        Err(WordFault::Memory) => Status::Memory,
        Err(WordFault::Usage) => report_usage(sink),
    }
}

/// Ends a run whose words couldn't be gathered: one of them isn't UTF-8, or memory ran out.
pub fn decline<K: Sink>(error: &Error, sink: &mut K) -> Status
    ensures memory { error_kind error.now ≡ OutOfMemory → result ≡ Memory }
    ensures usage { (error_kind error.now ≡ OutOfMemory → ⊥)
        → WritesUsage result (K.shown sink.old) (K.shown sink.new) }
    ensures unwritten { result ≡ Memory → K.shown sink.new ≡ K.shown sink.old }
    ensures causes { (source : SourceShown)
        → HasCauses result source source (K.shown sink.old) (K.shown sink.new) }
{
    match error.kind() {
        ErrorKind::OutOfMemory => Status::Memory,
        _ => report_usage(sink),
    }
}

/// Says how to call the program.
fn report_usage<K: Sink>(sink: &mut K) -> Status
    ensures written { WritesUsage result (K.shown sink.old) (K.shown sink.new) }
    ensures causes { (source : SourceShown)
        → HasCauses result source source (K.shown sink.old) (K.shown sink.new) }
{
    match write_all(sink, b"usage: stindex [--strict] [FILE]...\n") {
        Ok(()) => Status::Usage,
        Err(_) => Status::SinkFault,
    }
}

/// Does what the words ask for, from a new session on.
fn start<S: Source, K: Sink, L: Library>(
    alloc: Global,
    matches: &ArgMatches<'_>,
    limits: &Limits,
    source: &mut S,
    sink: &mut K,
    library: &mut L,
) -> Status
    requires { AllowsLimits limits.now }
    ensures serves { ServesAsked (setting_of limits.now) (asked_of matches.now) result
        (devices (S.shown source.old) (K.shown sink.old) (L.shown library.old))
        (devices (S.shown source.new) (K.shown sink.new) (L.shown library.new)) }
    ensures library { KeepsFiles (L.shown library.old) (L.shown library.new) }
    ensures causes { HasCauses result (S.shown source.old) (S.shown source.new)
        (K.shown sink.old) (K.shown sink.new) }
{
    let Ok(mut pending) = Pending::new(alloc, limits.line) else {
        return Status::Memory;
    };
    let Ok(mut session) = Session::new(alloc, limits) else {
        return Status::Memory;
    };
    run(
        matches,
        limits,
        &mut session,
        &mut pending,
        source,
        sink,
        library,
    )
}

/// Loads the files and reads the input, from a new session on.
#[tactic(auto, using(si_io::proofs::Faults::HasCause_counted))]
fn run<S: Source, K: Sink, L: Library>(
    matches: &ArgMatches<'_>,
    limits: &Limits,
    session: &mut Session,
    pending: &mut Pending,
    source: &mut S,
    sink: &mut K,
    library: &mut L,
) -> Status
    requires start { IsNewSession (setting_of limits.now) session.old }
    requires held { held_of pending.old ≡ [] }
    requires limit { limit_of pending.old ≡ limits.now.line }
    ensures serves { ServesAsked (setting_of limits.now) (asked_of matches.now) result
        (devices (S.shown source.old) (K.shown sink.old) (L.shown library.old))
        (devices (S.shown source.new) (K.shown sink.new) (L.shown library.new)) }
    ensures library { KeepsFiles (L.shown library.old) (L.shown library.new) }
    ensures causes { HasCauses result (S.shown source.old) (S.shown source.new)
        (K.shown sink.old) (K.shown sink.new) }
    ensures begun { result ≡ Memory → ⊥ }
{
    let strict = is_strict(matches);
    match load_files(matches, strict, session, sink, library) {
        Ok(()) => {}
        Err(stop) => return stop.status(),
    }
    let mut chunk = [0; CHUNK];
    let mut taken = 0;
    while taken < limits.session {
        let room = (limits.session - taken).min(CHUNK as u64) as usize;
        let count = match source.read(&mut chunk[..room]) {
            Ok(count) => count,
            Err(_) => return Status::SourceFault,
        };
        if count == 0 {
            match close(strict, session, pending, sink, library) {
                Ok(()) => return Status::Ended,
                Err(stop) => return stop.status(),
            }
        }
        match feed(strict, session, pending, &chunk[..count], sink, library) {
            Ok(()) => taken += count as u64,
            Err(stop) => return stop.status(),
        }
    }
    Status::SessionLimit
}

/// Loads each file that the words name.
fn load_files<K: Sink, L: Library>(
    matches: &ArgMatches<'_>,
    strict: bool,
    session: &mut Session,
    sink: &mut K,
    library: &mut L,
) -> Result<(), Stop>
    requires { session.old.state ≡ empty_state }
    ensures { LoadsOrStops strict result session.old session.new (asked_of matches.now).files
        (around (K.shown sink.old) (L.shown library.old))
        (around (K.shown sink.new) (L.shown library.new)) }
{
    let Some(files) = matches.get_strs("FILE") else {
        return Ok(());
    };
    for file in files {
        load(strict, session, file.as_bytes(), sink, library)?;
    }
    Ok(())
}

/// Loads the file that a word names.
fn load<K: Sink, L: Library>(
    strict: bool,
    session: &mut Session,
    word: &[u8],
    sink: &mut K,
    library: &mut L,
) -> Result<(), Stop>
    ensures { ActsOrStops strict result session.old session.new (a_word word.now)
        (around (K.shown sink.old) (L.shown library.old))
        (around (K.shown sink.new) (L.shown library.new)) }
{
    let outcome = session.load(word, library, sink);
    judge(strict, outcome)
}

/// Acts on the line that was begun, which ends here.
fn act<K: Sink, L: Library>(
    strict: bool,
    session: &mut Session,
    pending: &mut Pending,
    sink: &mut K,
    library: &mut L,
) -> Result<(), Stop>
    ensures acts { ActsOrStops strict result session.old session.new (a_line (held_of pending.old))
        (around (K.shown sink.old) (L.shown library.old))
        (around (K.shown sink.new) (L.shown library.new)) }
    ensures held { held_of pending.new ≡ [] }
    ensures limit { limit_of pending.new ≡ limit_of pending.old }
{
    let outcome = session.step(pending.bytes(), library, sink);
    pending.clear();
    judge(strict, outcome)
}

/// Whether the run goes on after a step.
fn judge(strict: bool, outcome: Stepped) -> Result<(), Stop>
    ensures { Judges strict outcome result }
{
    match outcome {
        Stepped::SinkFailed => Err(Stop::SinkFault),
        Stepped::Refused if strict => Err(Stop::Refused),
        _ => Ok(()),
    }
}

/// Acts on each line that ends in these bytes, and holds the rest.
fn feed<K: Sink, L: Library>(
    strict: bool,
    session: &mut Session,
    pending: &mut Pending,
    bytes: &[u8],
    sink: &mut K,
    library: &mut L,
) -> Result<(), Stop>
    requires { limit_of pending.old ≡ session.old.setting.limits.line }
    ensures feeds { FeedsOrStops strict result session.old session.new bytes.now
        (held_of pending.old) (held_of pending.new)
        (around (K.shown sink.old) (L.shown library.old))
        (around (K.shown sink.new) (L.shown library.new)) }
    ensures limit { limit_of pending.new ≡ limit_of pending.old }
{
    let mut rest = bytes;
    while let Some(end) = line_feed(rest) {
        pending.push(&rest[..end]);
        act(strict, session, pending, sink, library)?;
        rest = &rest[end + 1..];
    }
    pending.push(rest);
    Ok(())
}

/// Acts on the last line, if one was begun, since the input ends here.
fn close<K: Sink, L: Library>(
    strict: bool,
    session: &mut Session,
    pending: &mut Pending,
    sink: &mut K,
    library: &mut L,
) -> Result<(), Stop>
    ensures { ClosesOrStops strict result session.old session.new (held_of pending.old)
        (around (K.shown sink.old) (L.shown library.old))
        (around (K.shown sink.new) (L.shown library.new)) }
{
    if pending.bytes().is_empty() {
        return Ok(());
    }
    act(strict, session, pending, sink, library)
}
