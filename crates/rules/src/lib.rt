// The rules: what one record does to an account where its lines fit the room; where they do not, the account is handed back as it came, so that the
// caller keeps no second one. A file for each kind has its own refusals and its figures.
#![tactic(auto)]

pub mod cattle;
pub mod close;
pub mod energy;
pub mod enteric;
pub mod farm;
pub mod grazing;
pub mod heading;
pub mod pig;
pub mod soil;
pub mod tillage;
mod figures; // figures.rt: sums and subtotals
mod lines; // lines.rt: an account with its line
pub mod outside; // outside.rt: a value out of its range, whatever the row
mod refusals; // refusals.rt: what all kinds share

ghost use Rattle.std.specs.Prelude.{◌≡◌, ◌<◌};
ghost use Rattle.account.specs.Range.{AccountInRange};
ghost use Rattle.account.specs.Judge.{WholeRecord, version_of, record_row, judge};
ghost use Rattle.account.specs.Told.{TellsIn};
ghost use Rattle.rules.specs.Right.{Right};

use account::{Account, Judged};
use codec::LAST_KIND;
use codec::kinds::{
    CATTLE, CLOSE, ENERGY, ENTERIC, FARM, FARM_FACTORS, GRAZING, HEADING, PIG, SOIL, TILLAGE,
    bytes_of,
};
use refusals::wrong;

// What the values of a record do that is as long as its row says: a function of its own, else the compiler keeps copies of the account. No kind is
// left for the last arm; with it the compiler sees that the row needs no further test.
fn by_kind(a: Account, row: u64, r: &[u8], room: usize) -> Judged
    requires { AccountInRange a × (a.stage < 2) × Right r.now × (row ≡ record_row r.now) }
    ensures { TellsIn room a (judge a r.now) result }
{
    match row {
        FARM => farm::weigh(a, values::farm::read(r, 4), room),
        HEADING => heading::weigh(a, values::heading::read(r, 4), room),
        ENTERIC => enteric::weigh(a, values::enteric::read(r, 4), room),
        CATTLE => cattle::weigh(a, values::cattle::read(r, 4), room),
        PIG => pig::weigh(a, values::pig::read(r, 4), room),
        ENERGY => energy::weigh(a, values::energy::read(r, 4), room),
        SOIL => soil::weigh(a, values::soil::read(r, 4), room),
        CLOSE => close::weigh(a, values::close::read(r, 4), room),
        TILLAGE => tillage::weigh(a, values::tillage::read(r, 4), room),
        GRAZING => grazing::weigh(a, values::grazing::read(r, 4), room),
        _ => wrong(a, 3, 0),
    }
}

// What the whole record r does that is not of version 1: a farm record of version 2, or refused.
fn by_version(a: Account, r: &[u8], room: usize) -> Judged
    requires { AccountInRange a × (a.stage < 2) × WholeRecord r.now × (version_of r.now ≡ 1 → ⊥) }
    ensures { TellsIn room a (judge a r.now) result }
{
    let version = r[2];
    let kind = r[3];
    if (version != 2) | (kind != FARM as u8) {
        return wrong(a, 2, 0);
    }
    if r.len() != bytes_of(FARM_FACTORS) {
        return wrong(a, 4, 0);
    }
    farm::weigh_factors(a, values::farm_factors::read(r, 4), room)
}

// What the whole record r does: its version, its kind and its length are looked at here, its values in the kind's file.
pub fn judge(a: Account, r: &[u8], room: usize) -> Judged
    requires { AccountInRange a × (a.stage < 2) × WholeRecord r.now }
    ensures { TellsIn room a (judge a r.now) result }
{
    let version = r[2];
    if version != 1 {
        return by_version(a, r, room);
    }
    let kind = r[3];
    if (kind < 1) | ((LAST_KIND as u8) < kind) {
        return wrong(a, 3, 0);
    }
    let row = kind as u64;
    if r.len() != bytes_of(row) {
        return wrong(a, 4, 0);
    }
    by_kind(a, row, r, room)
}
