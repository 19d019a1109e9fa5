//! The words after the program's name.

ghost use Rattle.std.specs.Prelude.{◌≡◌, ◌≢◌, ◌↔◌, ℕ, List, [], ◌∷◌, codes, map, IfSome, IfNone, IsTrue, string_bytes};
ghost use Rattle.edit_session.specs.Words.{AreNames, IsForm, IsEdit, IsExport, IsCheck};

/// The names of a form with a map and the name that a text is kept under.
#[derive(Drop)]
pub(crate) struct Names<'a> {
    pub(crate) map: &'a str,
    pub(crate) out: &'a str,
}

fn is_form(word: &str, form: &str) -> bool
    ensures { IsTrue result ↔ (word.now ≡ form.now) }
{
    word == form
}

fn is_check(form: &str) -> bool
    ensures { IsTrue result ↔ (form.now ≡ codes "check") }
{
    form == "check"
}

fn is_name(name: &str) -> bool
    ensures { IsTrue result ↔ (name.now ≢ []) }
{
    !name.is_empty()
}

// Both have a byte at least, and they differ.
fn are_names(map: &str, out: &str) -> bool
    ensures { IsTrue result ↔ AreNames map.now out.now }
{
    !map.is_empty() && !out.is_empty() && map != out
}

// The names, where the words are `FORM MAP OUT`, both names have a byte at least, and they differ.
fn read_form<'a>(words: &'a [String], form: &str) -> Option<Names<'a>>
    ensures form { IfSome result (λ n. IsForm form.now (map string_bytes words.now) n.map.now n.out.now) }
    ensures none { IfNone result ((name out : List ℕ) → IsForm form.now (map string_bytes words.now) name out → ⊥) }
{
    let [word, map, out] = words else {
        return None;
    };
    if !is_form(word.as_str(), form) {
        return None;
    }
    if !are_names(map.as_str(), out.as_str()) {
        return None;
    }
    Some(Names {
        map: map.as_str(),
        out: out.as_str(),
    })
}

/// The names, where the words are `edit MAP OUT`, both names have a byte at least, and they differ.
pub(crate) fn read_edit(words: &[String]) -> Option<Names<'_>>
    ensures edit { IfSome result (λ e. IsEdit (map string_bytes words.now) e.map.now e.out.now) }
    ensures none { IfNone result ((name out : List ℕ) → IsEdit (map string_bytes words.now) name out → ⊥) }
{
    read_form(words, "edit")
}

/// The names, where the words are `export MAP OUT`, both names have a byte at least, and they differ.
pub(crate) fn read_export(words: &[String]) -> Option<Names<'_>>
    ensures export { IfSome result (λ e. IsExport (map string_bytes words.now) e.map.now e.out.now) }
    ensures none { IfNone result ((name out : List ℕ) → IsExport (map string_bytes words.now) name out → ⊥) }
{
    read_form(words, "export")
}

/// The name, where the words are `check MAP` and the name has a byte at least.
pub(crate) fn read_check(words: &[String]) -> Option<&str>
    ensures check { IfSome result (λ name. IsCheck (map string_bytes words.now) name.now) }
    ensures none { IfNone result ((name : List ℕ) → IsCheck (map string_bytes words.now) name → ⊥) }
{
    let [form, map] = words else {
        return None;
    };
    if !is_check(form.as_str()) {
        return None;
    }
    if !is_name(map.as_str()) {
        return None;
    }
    Some(map.as_str())
}
