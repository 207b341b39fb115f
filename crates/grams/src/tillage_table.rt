// Table A4-4 of source document 002.
ghost use Rattle.std.specs.Prelude.{◌≡◌, ◌≤◌};
ghost use Rattle.grams.specs.TillageTable.{PlaceIn, less_of, pair_of};
ghost use Rattle.grams.specs.Tillage.{entry_of};

// lumCmax without its sign, in g per square metre, and k in ten-thousandths.
#[derive(Clone, Copy)]
pub struct Entry(pub u64, pub u64);

// For each zone and texture the three changes towards less tillage, as printed; in two bytes each, since the code lays the table on the stack.
const LESS_TILLAGE: [[u16; 6]; 27] = [
    [143, 262, 441, 284, 584, 306],
    [217, 253, 478, 282, 695, 311],
    [155, 258, 398, 331, 553, 403],
    [232, 282, 25, 252, 257, 222],
    [246, 227, 241, 219, 486, 211],
    [349, 285, 184, 291, 533, 298],
    [221, 270, 450, 283, 671, 296],
    [233, 219, 464, 238, 698, 258],
    [163, 180, 467, 231, 630, 283],
    [277, 295, 665, 268, 941, 242],
    [238, 266, 311, 230, 549, 193],
    [206, 228, 235, 178, 441, 127],
    [181, 307, 435, 300, 616, 293],
    [173, 262, 264, 256, 437, 250],
    [197, 208, 207, 216, 404, 223],
    [183, 226, 316, 239, 499, 252],
    [233, 193, 261, 230, 495, 266],
    [268, 149, 193, 194, 462, 240],
    [51, 141, 289, 138, 340, 135],
    [446, 163, 115, 159, 561, 155],
    [31, 73, 581, 101, 613, 129],
    [105, 175, 638, 153, 743, 132],
    [763, 120, 807, 131, 1570, 143],
    [533, 91, 778, 106, 1311, 121],
    [256, 230, 411, 266, 667, 302],
    [331, 271, 320, 287, 651, 302],
    [196, 203, 189, 230, 385, 257],
];

// The change n, 1 to 3, towards less tillage.
fn towards_less(zone: u64, texture: u64, n: u64) -> Entry
    requires { (1 ≤ zone) × (zone ≤ 9) × (1 ≤ texture) × (texture ≤ 3) × (1 ≤ n) × (n ≤ 3) }
    ensures { result ≡ entry_of (less_of zone texture n) }
{
    let row = LESS_TILLAGE[((zone - 1) * 3 + (texture - 1)) as usize];
    let at = ((n - 1) * 2) as usize;
    Entry(row[at] as u64, row[at + 1] as u64)
}

// A change back, 4 to 6, has the numbers of the change that it reverses, but for the two exceptions of the print.
pub(crate) fn entry_at(zone: u64, texture: u64, change: u64) -> Entry
    requires { PlaceIn zone texture change }
    ensures { result ≡ entry_of (pair_of zone texture change) }
{
    match zone * 100 + texture * 10 + change {
        825 => Entry(1256, 219),
        835 => Entry(441, 310),
        _ => towards_less(zone, texture, (change - 1) % 3 + 1),
    }
}
