ghost use Rattle.std.specs.Prelude.{◌≡◌, length, All};
ghost use Rattle.root_search.specs.Targets.{shared, all_give, each_found, firsts_give, bits_give};

use bit_rows::BitRow;
use map_walk::Target;

// How many of a target's candidates these bits keep.
pub(crate) fn shared(target: &Target, bits: &BitRow) -> usize
    requires { length bits.now ≡ length target.now.mask }
    ensures { result ≡ shared bits.now target.now.mask }
{
    bits.ones_and(&target.mask)
}

// Whether as many candidates as are wanted are kept, and of each target as many as it has copies.
fn all_give(wanted: usize, bits: &BitRow, targets: &[Target]) -> bool
    requires { All (λ t. length bits.now ≡ length t.mask) targets.now }
    ensures { result ≡ all_give wanted bits.now targets.now }
{
    if bits.ones() != wanted {
        return false;
    }
    for i in 0..targets.len() {
        if shared(&targets[i], bits) != targets[i].copies {
            return false;
        }
    }
    true
}

// Whether so many candidates are those of the targets, of each target some, and each target has one copy.
fn each_found(total: usize, bits: &BitRow, targets: &[Target]) -> bool
    requires { All (λ t. length bits.now ≡ length t.mask) targets.now }
    ensures { result ≡ each_found total bits.now targets.now }
{
    let mut left = total;
    for i in 0..targets.len() {
        let found = shared(&targets[i], bits);
        if targets[i].copies != 1 {
            return false;
        }
        if found == 0 {
            return false;
        }
        if left < found {
            return false;
        }
        left -= found;
    }
    left == 0
}

// Whether more candidates than are wanted are kept, each of a target, of each target some, and each target has one copy.
fn firsts_give(wanted: usize, bits: &BitRow, targets: &[Target]) -> bool
    requires { All (λ t. length bits.now ≡ length t.mask) targets.now }
    ensures { result ≡ firsts_give wanted bits.now targets.now }
{
    let total = bits.ones();
    if wanted < total {
        each_found(total, bits, targets)
    } else {
        false
    }
}

/// Whether the candidates that these bits keep give an output of so many rows, with or without removal of duplicates. It takes no memory.
pub fn bits_give(distinct: bool, wanted: usize, bits: &BitRow, targets: &[Target]) -> bool
    requires { All (λ t. length bits.now ≡ length t.mask) targets.now }
    ensures { result ≡ bits_give distinct wanted bits.now targets.now }
{
    if distinct {
        firsts_give(wanted, bits, targets)
    } else {
        all_give(wanted, bits, targets)
    }
}
