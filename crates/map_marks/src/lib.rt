// Document 02, R-12: the marks of an update or a hold, set in a lent map of n channels. Rises and drops are two slices, as C lends them.
// How long the map is is asked of the caller, who has tested it: of a type that says it a clause would say map.exit.0.now.
#![tactic(auto)]

ghost use Rattle.std.specs.Prelude.{◌≡◌, length};
ghost use Rattle.laws.specs.Bits.{width};
ghost use Rattle.model.specs.Map.{map_long, flags_set, marks_set};

// The flag of every mark that is 1 is set.
fn set_flags(flags: &mut [u8], marks: &[u8])
    requires { length flags.old ≡ width (length marks.now) }
    ensures { flags.new ≡ flags_set flags.old marks.now }
{
    let n = marks.len();
    for (i, flag) in flags.iter_mut().enumerate() {
        let from = 8 * i;
        let to = n.min(from + 8);
        *flag |= bits::gathered(&marks[from..to]);
    }
}

// The rise and drop marks of an update or a hold.
pub fn set_marks(map: &mut [u8], rise: &[u8], drop: &[u8])
    requires { (length map.old ≡ map_long (length rise.now)) × (length drop.now ≡ length rise.now) }
    ensures { map.new ≡ marks_set (length rise.now) map.old rise.now drop.now }
{
    let w = rise.len().div_ceil(8);
    let e = w + w;
    set_flags(&mut map[0..w], rise);
    set_flags(&mut map[w..e], drop);
}
