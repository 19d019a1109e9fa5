//! Where texts are fetched from and kept, each under a name.

ghost use Rattle.std.specs.Prelude.{◌≡◌, ◌⊎◌, ℕ, ◌<◌, ◌≤◌, List, [], ◌∷◌, length, Option, Some, None, OnOk, OnErr, IfSome, IsSomeAnd, vec_len};
ghost use Rattle.outside_io.specs.Moved.{Rose, Grew};
ghost use Rattle.outside_io.specs.Texts.{Texts, text_named, HoldsUnder, OnFailed, OnTooLong, UnlessFailed};

use crate::faults::{Failed, FetchEnd};

/// Where texts are fetched from and kept, each under a name.
pub trait Vault {
    /// How often `fetch` failed; a told text that isn't there need not count.
    ghost fetch_faults: { Self → ℕ };

    /// How often `keep` failed.
    ghost keep_faults: { Self → ℕ };

    /// The texts, where they are told. Of equal names the last one counts.
    ghost texts: { Self → Option Texts };

    /// The pairs of name and bytes kept so far, in order, where they are told.
    ghost kept: { Self → Option Texts };

    /// Replaces `out` by the bytes under `name`, at most `limit` of them. It answers `TooLong`
    /// where they are more, `Failed` where the vault failed or tells that there is no such text,
    /// and `Memory` for want of memory. After an error nothing is known of `out`.
    fn fetch(&mut self, name: &str, limit: usize, out: &mut Vec<u8>) -> Result<(), FetchEnd>
        ensures within { OnOk result (vec_len out.new ≤ limit) }
        ensures found { OnOk result
            (IfSome (texts self.old) (λ texts. text_named texts name.now ≡ Some out.new.items)) }
        ensures too_long { OnTooLong result (IfSome (texts self.old)
            (λ texts. IsSomeAnd (text_named texts name.now) (λ bytes. limit < length bytes))) }
        ensures texts_stand { texts self.new ≡ texts self.old }
        ensures kept_stand { kept self.new ≡ kept self.old }
        ensures quiet { UnlessFailed result (fetch_faults self.new ≡ fetch_faults self.old) }
        ensures later { fetch_faults self.old ≤ fetch_faults self.new }
        ensures keeps_stand { keep_faults self.new ≡ keep_faults self.old }
        ensures cause { OnFailed result (Rose (fetch_faults self.old) (fetch_faults self.new)
            ⊎ IsSomeAnd (texts self.old) (λ texts. text_named texts name.now ≡ None)) };

    /// Keeps `bytes` under `name`.
    fn keep(&mut self, name: &str, bytes: &[u8]) -> Result<(), Failed>
        ensures kept { OnOk result
            (Grew (kept self.old) (kept self.new) ((name.now, bytes.now) ∷ [])) }
        ensures texts { OnOk result (IfSome (texts self.old) (λ before.
            IfSome (texts self.new) (λ now. HoldsUnder before now name.now bytes.now))) }
        ensures failed { OnErr result (kept self.new ≡ kept self.old) }
        ensures quiet { OnOk result (keep_faults self.new ≡ keep_faults self.old) }
        ensures later { keep_faults self.old ≤ keep_faults self.new }
        ensures fetches_stand { fetch_faults self.new ≡ fetch_faults self.old }
        ensures cause { OnErr result (Rose (keep_faults self.old) (keep_faults self.new)) };
}
