// An account as numbers, part by part, and back from all of them: each in the bytes that specs/Account of account gives it.
#![tactic(auto)]

ghost use Rattle.std.specs.Prelude.{◌≡◌, ◌<◌, length};
ghost use Rattle.account.specs.Account.{account_fields, width_of, start_numbers, heading_numbers, used_numbers, subtotal_numbers, refusal_numbers};
ghost use Rattle.account.specs.Account.{account_of};

use account::{Account, Farm, Figures, Heading, Refusal, Subtotal, Used};
use grams::units::{Co2, Grazed, N2o};
use line_bytes::FIGURES;

// Behind stage, records and what the farm record set: where the numbers of each part begin, how many there are, and how many bytes hold them all.
pub const HEADING: usize = 4;

pub const USED: usize = HEADING + 3;

pub const SUBTOTAL: usize = USED + 4;

pub const SUMS: usize = SUBTOTAL + 4;

pub const REFUSAL: usize = SUMS + FIGURES;

pub const NUMBERS: usize = REFUSAL + 3;

pub const BYTES: usize = 104;

// How many bytes hold the number i. In a constant text, where the compiler finds them: an array it would store anew each time.
pub fn width(i: usize) -> usize
    requires { i < length account_fields }
    ensures { result ≡ width_of i }
{
    let widths =
        b"\x01\x02\x02\x02\x02\x01\x02\x02\x02\x02\x02\x08\x08\x08\x08\x08\x08\x08\x08\x08\x08\x01\x02\x01";
    widths[i] as usize
}

// Stage, records and what the farm record set.
pub fn of_start(a: Account) -> [u64; 4]
    ensures { result ≡ start_numbers a }
{
    [
        a.stage as u64,
        a.records as u64,
        a.farm.ch4 as u64,
        a.farm.n2o as u64,
    ]
}

pub fn of_heading(h: Heading) -> [u64; 3]
    ensures { result ≡ heading_numbers h }
{
    [h.group as u64, h.class as u64, h.head as u64]
}

pub fn of_used(u: Used) -> [u64; 4]
    ensures { result ≡ used_numbers u }
{
    [
        u.enteric as u64,
        u.nitrogen as u64,
        u.pig as u64,
        u.grazed as u64,
    ]
}

pub fn of_subtotal(s: Subtotal) -> [u64; 4]
    ensures { result ≡ subtotal_numbers s }
{
    let n2o = s.n2o.grams();
    [s.ch4, n2o, s.excreted, s.land]
}

pub fn of_refusal(r: Refusal) -> [u64; 3]
    ensures { result ≡ refusal_numbers r }
{
    [r.code as u64, r.accepted as u64, r.field as u64]
}

fn farm_in(v: [u64; NUMBERS]) -> Farm
    ensures { result ≡ (account_of v).farm }
{
    Farm {
        ch4: (v[2] % 65536) as u16,
        n2o: (v[3] % 65536) as u16,
    }
}

fn heading_in(v: [u64; NUMBERS]) -> Heading
    ensures { result ≡ (account_of v).heading }
{
    Heading {
        group: (v[4] % 65536) as u16,
        class: (v[5] % 256) as u8,
        head: (v[6] % 65536) as u16,
    }
}

fn used_in(v: [u64; NUMBERS]) -> Used
    ensures { result ≡ (account_of v).used }
{
    Used {
        enteric: (v[7] % 65536) as u32,
        nitrogen: (v[8] % 65536) as u32,
        pig: (v[9] % 65536) as u32,
        grazed: (v[10] % 65536) as u32,
    }
}

fn subtotal_in(v: [u64; NUMBERS]) -> Subtotal
    ensures { result ≡ (account_of v).subtotal }
{
    let n2o = N2o::of(v[12]);
    Subtotal {
        ch4: v[11],
        n2o: n2o,
        excreted: v[13],
        land: v[14],
    }
}

fn sums_in(v: [u64; NUMBERS]) -> Figures
    ensures { result ≡ (account_of v).sums }
{
    let n2o = N2o::of(v[16]);
    let co2 = Co2::from_word(v[17]);
    let grazing = Grazed::of(v[20]);
    Figures {
        ch4: v[15],
        n2o: n2o,
        co2: co2,
        excreted: v[18],
        land: v[19],
        grazing: grazing,
    }
}

fn refusal_in(v: [u64; NUMBERS]) -> Refusal
    ensures { result ≡ (account_of v).refusal }
{
    Refusal {
        code: (v[21] % 256) as u8,
        accepted: (v[22] % 65536) as u16,
        field: (v[23] % 256) as u8,
    }
}

// The account of these numbers, each cut to its bytes.
pub fn account_of(v: [u64; NUMBERS]) -> Account
    ensures { result ≡ account_of v }
{
    let farm = farm_in(v);
    let heading = heading_in(v);
    let subtotal = subtotal_in(v);
    let used = used_in(v);
    let sums = sums_in(v);
    let refusal = refusal_in(v);
    Account {
        stage: (v[0] % 256) as u8,
        records: (v[1] % 65536) as u16,
        farm: farm,
        heading: heading,
        subtotal: subtotal,
        used: used,
        sums: sums,
        refusal: refusal,
    }
}
