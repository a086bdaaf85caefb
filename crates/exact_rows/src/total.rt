//! Signs of sums.
//!
//! Nothing wider than the numbers themselves is needed: the sum so far is kept between the least and the greatest
//! number, by adding next a number of the other sign.
ghost use Rattle.std.specs.Prelude.{◌≡◌, pos, int_lt};
ghost use Rattle.std.specs.List.{list_any};
ghost use Rattle.std.specs.Ordering.{int_cmp};
ghost use Rattle.lk_model.specs.Lists.{sum_of};

use std::cmp::Ordering;

/// The sign of the sum of any numbers, exactly, though the sum itself may fit no type: while what has been added so far
/// is below 0 the next number above 0 is added, else the next below 0, by two cursors over the list.
pub fn sign_of_sum(xs: &[i128]) -> Ordering
    ensures { result ≡ int_cmp (sum_of xs.now) (pos 0) }
{
    let (mut gains, mut losses) = (xs, xs);
    let mut rest: i128 = 0;
    'cancel: loop {
        if rest < 0 {
            match gains.split_first() {
                Some((x, others)) => {
                    rest += (*x).max(0);
                    gains = others;
                }
                None => return Ordering::Less,
            }
        } else {
            match losses.split_first() {
                Some((x, others)) => {
                    rest += (*x).min(0);
                    losses = others;
                }
                None => break 'cancel,
            }
        }
    }
    if rest > 0 || has_gain(gains) {
        Ordering::Greater
    } else {
        Ordering::Equal
    }
}

/// Whether a number is above 0.
fn has_gain(xs: &[i128]) -> bool
    ensures { result ≡ list_any (int_lt (pos 0)) xs.now }
{
    xs.iter().any(|x| *x > 0)
}
