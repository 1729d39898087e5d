// Names, symbols, terms and places, written to a sink.
ghost use Rattle.std.specs.Prelude.{◌≡◌, ◌<◌, ◌||◌, ◌==◌, List, [], ◌∷◌, ◌++◌, IfSome, decimal, flat_map, length, map};
ghost use Rattle.std.specs.List.{list_all, position};
ghost use Rattle.si_defs.specs.Bytes.{is_lower_word, is_word_byte};
ghost use Rattle.si_defs.specs.Tokens.{escaped, quoted};
ghost use Rattle.si_defs.specs.Terms.{row};
ghost use Rattle.si_defs.specs.Printing.{word_text, file_text, name_text, symbol_text, term_text, more_texts, path_text, place_text, map_text};
ghost use Rattle.si_io.specs.Sends.{Sends};
ghost use Rattle.si_term.specs.Terms.{symbol_of, term_of};
ghost use Rattle.si_term.specs.Meaning.{name_of, place_of};
ghost use Rattle.si_reply.specs.PrintedParts.{arguments_text, numbers_behind, number_list};

use itoa::Buffer;
use si_flat::LitMap;
use si_io::{Failed, Sink, write_all};
use si_term::{Name, NameKind, Place, Sym, SymKind, Term, is_word_byte};

/// Writes the bytes.
#[inline(always)]
pub fn put_bytes<K: Sink>(sink: &mut K, bytes: &[u8]) -> Result<(), Failed>
    ensures { Sends result bytes.now (K.shown sink.old) (K.shown sink.new) }
{
    if bytes.is_empty() {
        return Ok(());
    }
    let count = sink.write(bytes)?;
    if count == bytes.len() {
        return Ok(());
    }
    if count == 0 {
        return Err(Failed);
    }
    write_all(sink, &bytes[count..])
}

/// Writes a word, and then a number.
#[tactic(auto, using(si_io::proofs::Sends::sends))]
pub fn put_number<K: Sink>(sink: &mut K, word: &[u8], number: u64) -> Result<(), Failed>
    ensures { Sends result (word.now ++ decimal number) (K.shown sink.old)
        (K.shown sink.new) }
{
    if number < 10 {
        return put_digit(sink, word, b'0' + number as u8);
    }
    put_bytes(sink, word)?;
    let mut buffer = Buffer::new();
    put_bytes(sink, buffer.format(number).as_bytes())
}

/// Writes a word, and then a byte: both at once where the word has one byte.
fn put_digit<K: Sink>(sink: &mut K, word: &[u8], digit: u8) -> Result<(), Failed>
    ensures { Sends result (word.now ++ digit ∷ []) (K.shown sink.old) (K.shown sink.new) }
{
    if word.len() == 1 {
        return put_bytes(sink, &[word[0], digit]);
    }
    put_bytes(sink, word)?;
    put_bytes(sink, &[digit])
}

/// Writes a text between quotes, with a backslash before each quote and each backslash.
#[tactic(auto, using(si_io::proofs::Sends::sends))]
pub fn put_quoted<K: Sink>(sink: &mut K, quote: u8, text: &[u8]) -> Result<(), Failed>
    ensures { Sends result (quoted quote text.now) (K.shown sink.old)
        (K.shown sink.new) }
{
    put_bytes(sink, &[quote])?;
    put_escaped(sink, quote, text)?;
    put_bytes(sink, &[quote])
}

/// Writes the name of a file.
pub fn put_file<K: Sink>(sink: &mut K, file: &[u8]) -> Result<(), Failed>
    ensures { Sends result (file_text file.now) (K.shown sink.old) (K.shown sink.new) }
{
    put_quoted(sink, b'\'', file)
}

/// Writes a name.
pub fn put_name<K: Sink>(sink: &mut K, name: &Name) -> Result<(), Failed>
    ensures { Sends result (name_text (name_of name.now)) (K.shown sink.old)
        (K.shown sink.new) }
{
    match name.kind {
        NameKind::Word => put_word(sink, name.text.as_bytes()),
        NameKind::Int => put_bytes(sink, name.text.as_bytes()),
    }
}

/// Writes a symbol.
pub fn put_symbol<K: Sink>(sink: &mut K, sym: &Sym) -> Result<(), Failed>
    ensures { Sends result (symbol_text (symbol_of sym.now)) (K.shown sink.old)
        (K.shown sink.new) }
{
    let text = sym.text.as_bytes();
    match sym.kind {
        SymKind::Word => put_word(sink, text),
        SymKind::Distinct => put_quoted(sink, b'"', text),
        SymKind::Dollar => put_bytes(sink, text),
        SymKind::Number => put_bytes(sink, text),
        SymKind::Equal => put_bytes(sink, text),
    }
}

/// Writes a term, with `mark` before each variable.
#[tactic(auto, using(si_io::proofs::Sends::sends))]
#[cycle(put)]
pub fn put_term<K: Sink>(sink: &mut K, term: &Term, mark: &[u8]) -> Result<(), Failed>
    ensures { Sends result (term_text (λ x. mark.now ++ x) (term_of term.now))
        (K.shown sink.old) (K.shown sink.new) }
{
    match term {
        Term::Var(name) => {
            put_bytes(sink, mark)?;
            put_bytes(sink, name.as_bytes())
        }
        Term::App(symbol, arguments) => {
            put_symbol(sink, symbol)?;
            put_arguments(sink, arguments.as_slice(), mark)
        }
    }
}

/// Writes where an entry stands: its clause, its literal's number and its path.
#[tactic(auto, using(si_io::proofs::Sends::sends))]
pub fn put_place<K: Sink>(sink: &mut K, name: &Name, place: &Place) -> Result<(), Failed>
    ensures { Sends result (place_text (name_of name.now) (place_of place.now))
        (K.shown sink.old) (K.shown sink.new) }
{
    put_name(sink, name)?;
    put_number(sink, b":", u64::from(place.literal))?;
    put_path(sink, place.path.as_slice())
}

/// Writes a map of literals.
#[tactic(auto, using(si_io::proofs::Sends::sends))]
pub fn put_map<K: Sink>(sink: &mut K, map: &LitMap) -> Result<(), Failed>
    ensures { Sends result (map_text map.now) (K.shown sink.old) (K.shown sink.new) }
{
    put_bytes(sink, b"[")?;
    put_list(sink, map.as_slice())?;
    put_bytes(sink, b"]")
}

/// Writes numbers with commas between them.
fn put_list<K: Sink>(sink: &mut K, numbers: &[u32]) -> Result<(), Failed>
    ensures { Sends result (number_list numbers.now) (K.shown sink.old)
        (K.shown sink.new) }
{
    if numbers.is_empty() {
        return Ok(());
    }
    put_number(sink, b"", u64::from(numbers[0]))?;
    put_numbers(sink, b",", &numbers[1..])
}

/// Whether a word needs no quotes.
fn is_lower_word(bytes: &[u8]) -> bool
    ensures { result ≡ is_lower_word bytes.now }
{
    match bytes.split_first() {
        Some((first, rest)) => first.is_ascii_lowercase() && are_word_bytes(rest),
        None => false,
    }
}

fn are_word_bytes(bytes: &[u8]) -> bool
    ensures { result ≡ list_all is_word_byte bytes.now }
{
    for byte in bytes {
        if !is_word_byte(*byte) {
            return false;
        }
    }
    true
}

/// Writes a word, in quotes where it needs them.
fn put_word<K: Sink>(sink: &mut K, text: &[u8]) -> Result<(), Failed>
    ensures { Sends result (word_text text.now) (K.shown sink.old) (K.shown sink.new) }
{
    if is_lower_word(text) {
        put_bytes(sink, text)
    } else {
        put_quoted(sink, b'\'', text)
    }
}

/// Writes the bytes of a quoted text, each run without a quote or a backslash in one piece.
fn put_escaped<K: Sink>(sink: &mut K, quote: u8, text: &[u8]) -> Result<(), Failed>
    ensures { Sends result (flat_map (escaped quote) text.now) (K.shown sink.old)
        (K.shown sink.new) }
{
    let mut rest = text;
    while let Some(run) = run_before_escape(rest, quote) {
        put_run(sink, &rest[..run], rest[run])?;
        rest = &rest[run + 1..];
    }
    put_bytes(sink, rest)
}

/// Writes a run, and then a byte with a backslash before it.
#[tactic(auto, using(si_io::proofs::Sends::sends))]
fn put_run<K: Sink>(sink: &mut K, run: &[u8], byte: u8) -> Result<(), Failed>
    ensures { Sends result (run.now ++ 92 ∷ byte ∷ []) (K.shown sink.old)
        (K.shown sink.new) }
{
    put_bytes(sink, run)?;
    put_bytes(sink, &[b'\\', byte])
}

/// How many bytes stand before the first that needs a backslash, if one does.
fn run_before_escape(text: &[u8], quote: u8) -> Option<usize>
    ensures first { result ≡ position (λ c. c == quote || c == 92) text.now }
    ensures within { IfSome result (λ n. n < length text.now) }
{
    text.iter()
        .position(|byte| *byte == quote || *byte == b'\\')
}

/// Writes the arguments of a symbol, in parentheses where there are any.
#[tactic(auto, using(si_io::proofs::Sends::sends))]
#[cycle(put)]
fn put_arguments<K: Sink>(sink: &mut K, terms: &[Term], mark: &[u8]) -> Result<(), Failed>
    ensures { Sends result (arguments_text (λ x. mark.now ++ x) (row (map term_of terms.now)))
        (K.shown sink.old) (K.shown sink.new) }
{
    if terms.is_empty() {
        return Ok(());
    }
    put_bytes(sink, b"(")?;
    put_term(sink, &terms[0], mark)?;
    put_others(sink, &terms[1..], mark)?;
    put_bytes(sink, b")")
}

/// Writes terms, each after a comma.
#[cycle(put)]
fn put_others<K: Sink>(sink: &mut K, terms: &[Term], mark: &[u8]) -> Result<(), Failed>
    ensures { Sends result (more_texts (λ x. mark.now ++ x) (row (map term_of terms.now)))
        (K.shown sink.old) (K.shown sink.new) }
{
    for i in 0..terms.len() {
        put_bytes(sink, b",")?;
        put_term(sink, &terms[i], mark)?;
    }
    Ok(())
}

/// Writes a path after a colon, where there is one.
#[tactic(auto, using(si_io::proofs::Sends::sends))]
fn put_path<K: Sink>(sink: &mut K, path: &[u32]) -> Result<(), Failed>
    ensures { Sends result (path_text path.now) (K.shown sink.old) (K.shown sink.new) }
{
    if path.is_empty() {
        return Ok(());
    }
    put_number(sink, b":", u64::from(path[0]))?;
    put_numbers(sink, b".", &path[1..])
}

/// Writes numbers, each after a mark.
fn put_numbers<K: Sink>(sink: &mut K, mark: &[u8], numbers: &[u32]) -> Result<(), Failed>
    ensures { Sends result (numbers_behind mark.now numbers.now) (K.shown sink.old)
        (K.shown sink.new) }
{
    for i in 0..numbers.len() {
        put_number(sink, mark, u64::from(numbers[i]))?;
    }
    Ok(())
}
