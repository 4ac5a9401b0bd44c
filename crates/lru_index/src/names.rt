//! Names and their keys.
ghost use Rattle.std.specs.Prelude.{◌≡◌, ℕ, List};
ghost use Rattle.lru_index.specs.NameKeys.{name_key};

/// Two names, or names in two directories, have different keys.
pub fn names_have_keys_of_their_own()
    ensures dir { (one : ℕ) (other : ℕ) (name : List ℕ) (second : List ℕ)
        → name_key one name ≡ name_key other second → one ≡ other }
    ensures name { (one : ℕ) (other : ℕ) (name : List ℕ) (second : List ℕ)
        → name_key one name ≡ name_key other second → name ≡ second }
{}
