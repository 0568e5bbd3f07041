// The other readers, in rising order.
ghost use Rattle.std.specs.Prelude.{◌≡◌};
ghost use Rattle.words.specs.Index.{other};

// The k-th reader, from 0, other than p.
#[tactic(auto, unfolding(words::specs::Index::other))]
pub fn other_reader(p: u32, k: u8) -> u32
    ensures { result ≡ other p k }
{
    let m = k as u32;
    if m + 1 < p { m + 1 } else { m + 2 }
}
