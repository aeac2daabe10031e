// What the code is lent to write hops of. It stands in a file of its own, since the definitions that the others cite name it.

ghost use Rattle.std.specs.Prelude.{◌≡◌, length};

// The pairs of hops of n channels, one hop after another: what stands at one place of the two slices is a pair.
#[derive(Clone, Copy)]
pub struct Pairs<'a> {
    pub n: usize,
    pub db: &'a [u64],
    pub power: &'a [u32],
    pub ghost alike: { length power.now ≡ length db.now },
}
