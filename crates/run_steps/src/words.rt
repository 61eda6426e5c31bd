//! The words of the command line.

ghost use Rattle.std.specs.Prelude.{MatchOption, ◌≡◌, None, Some};
ghost use Rattle.run_steps.specs.Words as spec;

use io_edge::Name;

/// What the text is.
#[derive(Clone, Copy)]
pub enum Mode {
    /// A query.
    Sql,
    /// A program of vector operators.
    Algebra,
}

/// What is asked: in which mode, and the names of the schema's file and the text's.
#[derive(Clone, Copy)]
pub struct Request<'a> {
    pub mode: Mode,
    pub schema: &'a str,
    pub text: &'a str,
}

/// The mode of a word.
fn mode_of(word: &str) -> Option<Mode>
    ensures { result ≡ spec.mode_of word.now }
{
    match word {
        "sql" => Some(Mode::Sql),
        "algebra" => Some(Mode::Algebra),
        _ => None,
    }
}

/// What the words ask. None where they are not the seven words of the command.
pub fn request_of<'a>(words: &'a [Name]) -> Option<Request<'a>>
    ensures { MatchOption result
        (spec.request_of words.now ≡ None)
        (λ r. spec.request_of words.now ≡ Some (record {
          mode = r.mode;
          schema = r.schema.now;
          text = r.text.now;
        })) }
{
    let [_, db_option, schema, mode_option, mode, text_option, text] = words else {
        return None;
    };
    let are_options = db_option.text() == "--db"
        && mode_option.text() == "--mode"
        && text_option.text() == "--text";
    if !are_options {
        return None;
    }
    let Some(mode) = mode_of(mode.text()) else {
        return None;
    };
    Some(Request {
        mode,
        schema: schema.text(),
        text: text.text(),
    })
}
