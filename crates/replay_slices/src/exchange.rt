// Exchanging the content of two slices, as far as both reach.
ghost use Rattle.std.specs.Prelude.{◌≡◌};
ghost use Rattle.replay_slices.specs.Swapped.{swapped};

#[tactic(auto, unfolding(crate::specs::Swapped::swapped))]
pub fn swap<T: Copy>(a: &mut [T], b: &mut [T])
    ensures { (a.new ≡ swapped b.old a.old) × (b.new ≡ swapped a.old b.old) }
{
    let n = a.len().min(b.len());
    a[..n].swap_with_slice(&mut b[..n]);
}
