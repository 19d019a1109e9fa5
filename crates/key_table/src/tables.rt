//! The program's two tables.
ghost use Rattle.std.specs.Prelude.{◌≡◌};
ghost use Rattle.key_table.specs.Tables.{command_words, file_words};

use crate::keys::Keys;
use crate::word::Word;

macro_rules! keys {
    ($($word:literal)*) => {
        Keys::of([$(Word::known($word)),*]).unwrap()
    };
}

/// The words that begin a script's lines, each command's at its place.
pub fn command_keys() -> Keys<40>
    ensures { result ≡ command_words }
{
    keys! {
        b"box" b"hull" b"delete" b"copy" b"move" b"turn" b"flip" b"clip" b"subtract" b"intersect"
        b"merge" b"hollow" b"vertex" b"snap" b"material" b"tex" b"lock" b"uv" b"convert" b"entity"
        b"set" b"unset" b"tie" b"untie" b"layer" b"freeze" b"thaw" b"group" b"ungroup" b"into"
        b"link" b"unlink" b"protect" b"unprotect" b"undo" b"redo" b"show" b"tree" b"pick"
        b"touching"
    }
}

/// The keys by which a map file tells the tree of its nodes, and the one that tells its format.
pub fn file_keys() -> Keys<10>
    ensures { result ≡ file_words }
{
    keys! {
        b"_tb_type" b"_tb_name" b"_tb_id" b"_tb_layer" b"_tb_group" b"_tb_layer_locked"
        b"_tb_linked_group_id" b"_tb_transformation" b"_tb_protected_properties" b"mapversion"
    }
}
