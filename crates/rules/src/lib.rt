// Who may send to whom: whether rules permit a pair, and how they fit a table.

#![tactic(auto)]

ghost use Rattle.std.specs.Prelude.{◌≡◌, ◌≤◌, length};
ghost use Rattle.model.specs.Rules.{in_range, holds_pair, permits, row_limit, no_rules, pairs_from, pair_misfit, is_fit, first_misfit, misfit, pair_of, rules_fit};
ghost use Rattle.rules.specs.Covers.{Covers, OneMore, RoomFor};

use model::{Misfit, Pair, Range, Rule, Rules};
use threads::NOBODY;

// The most rows.
const ROW_LIMIT: u8 = 64;

// No rules.
#[tactic(auto, unfolding(model::specs::Rules::no_rules))]
pub fn no_rules() -> Rules
    ensures { result ≡ no_rules }
{
    let none = Range { from: 0, to: 0 };
    let row = Rule {
        senders: none,
        targets: none,
        permits: false,
    };
    Rules {
        rows: [row; 64],
        len: 0,
    }
}

// A number is in a range.
#[tactic(auto, unfolding(model::specs::Rules::in_range))]
fn in_range(range: Range, x: u8) -> bool
    ensures { result ≡ in_range range x }
{
    (range.from <= x) & (x <= range.to)
}

// The pair of a sender and a target falls in a row.
#[tactic(auto, unfolding(model::specs::Rules::holds_pair))]
fn holds_pair(row: Rule, s: u8, r: u8) -> bool
    ensures { result ≡ holds_pair row s r }
{
    in_range(row.senders, s) & in_range(row.targets, r)
}

// The rules permit a pair.
pub fn permit(rules: Rules, s: u8, r: u8) -> bool
    requires { rules.len ≤ row_limit }
    ensures { result ≡ permits rules s r }
{
    let rows = &rules.rows[..rules.len as usize];
    (rules.len == 0) || rows.iter().any(|row| holds_pair(*row, s, r) & row.permits)
}

// Counts one more for each target of a range below n.
fn count_range(n: u8, range: Range, counts: &mut [u8; 32])
    requires { (n ≤ 32) × RoomFor n counts.old }
    ensures { OneMore n (in_range range) counts.old counts.new }
{
    for t in range.from..n {
        if range.to < t {
            return;
        }
        counts[t as usize] += 1;
    }
}

// Counts one more for each target below n that falls in a row with sender s.
fn count_row(n: u8, row: Rule, s: u8, counts: &mut [u8; 32])
    requires { (n ≤ 32) × RoomFor n counts.old }
    ensures { OneMore n (holds_pair row s) counts.old counts.new }
{
    if in_range(row.senders, s) {
        count_range(n, row.targets, counts);
    }
}

// In how many of some rows each target below n falls with sender s.
fn cover_of(n: u8, rows: &[Rule], s: u8) -> [u8; 32]
    requires { (n ≤ 32) × (length rows.now ≤ row_limit) }
    ensures { Covers n rows.now s result }
{
    let mut counts = [0u8; 32];
    for row in rows {
        count_row(n, *row, s, &mut counts);
    }
    counts
}

// A pair that falls in so many rows.
#[tactic(auto, unfolding(model::specs::Rules::pair_misfit))]
fn pair_misfit(count: u8, pair: Pair) -> Misfit
    ensures { result ≡ pair_misfit count pair }
{
    match count {
        0 => Misfit::Gap(pair),
        1 => Misfit::Fits,
        _ => Misfit::Overlap(pair),
    }
}

// How the pairs of sender s fit.
fn sender_misfit(n: u8, rows: &[Rule], s: u8) -> Misfit
    requires { (n ≤ 32) × (length rows.now ≤ row_limit) }
    ensures { result ≡ first_misfit rows.now (pairs_from n s) }
{
    let counts = cover_of(n, rows, s);
    for r in 0..n {
        let count = counts[r as usize];
        if (count != 1) & (r != s) {
            let pair = Pair {
                sender: s,
                target: r,
            };
            return pair_misfit(count, pair);
        }
    }
    Misfit::Fits
}

// The rule of a loading is kept.
pub fn is_fit(misfit: Misfit) -> bool
    ensures { result ≡ is_fit misfit }
{
    matches!(misfit, Misfit::Fits)
}

// How rules fit a table of n threads.
// Kept: a `Misfit` and no Result, since the definitions say it so (`misfit` of model/specs/Rules).
pub fn misfit_of(n: u8, rules: Rules) -> Misfit
    requires { n ≤ 32 }
    ensures { result ≡ misfit n rules }
{
    if ROW_LIMIT < rules.len {
        return Misfit::TooMany;
    }
    let rows = &rules.rows[..rules.len as usize];
    for s in 0..n {
        let found = sender_misfit(n, rows, s);
        if !is_fit(found) {
            return found;
        }
    }
    Misfit::Fits
}

// No rules are loaded, or they keep the rule of their loading.
#[tactic(auto, unfolding(model::specs::Rules::rules_fit))]
pub fn rules_fit(n: u8, rules: Rules) -> bool
    requires { n ≤ 32 }
    ensures { result ≡ rules_fit n rules }
{
    (rules.len == 0) || is_fit(misfit_of(n, rules))
}

// The pair that is told of a misfit, or 255 255.
#[tactic(auto, unfolding(model::specs::Rules::pair_of))]
pub fn pair_of(misfit: Misfit) -> Pair
    ensures { result ≡ pair_of misfit }
{
    match misfit {
        Misfit::Gap(pair) | Misfit::Overlap(pair) => pair,
        Misfit::Fits | Misfit::TooMany => Pair {
            sender: NOBODY,
            target: NOBODY,
        },
    }
}
