// The order of the candidates, by key: sixteen times the first cost, plus the scale factor's number.
ghost use Rattle.std.specs.Prelude.{◌≡◌};
ghost use Rattle.search.specs.Parts.{next_key};

// Said where there is no key, and larger than each of them. kept: a number in place of an Option, since the search's loop ends by one
// comparison with it.
pub const NO_KEY: u64 = u64::MAX;

// The least key from `from` on.
pub fn next_key(keys: &[u64; 16], from: u64) -> u64
    ensures { result ≡ next_key keys.now from 16 }
{
    let mut least = NO_KEY;
    for key in keys {
        if from <= *key && *key < least {
            least = *key;
        }
    }
    least
}
