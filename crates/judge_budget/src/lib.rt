// A budget from its decimal digits, or from the word `all`.
#![tactic(auto)]

ghost use Rattle.std.specs.Prelude.{◌≡◌};
ghost use Rattle.judge_budget.specs.Digits.{decimal_of, budget_of};

// A number above the largest of 64 bits is none.
fn decimal_of(text: &[u8]) -> Option<u64>
    ensures { result ≡ decimal_of text.now }
{
    if text.is_empty() {
        return None;
    }
    let mut n: u64 = 0;
    for b in text {
        if !b.is_ascii_digit() {
            return None;
        }
        let digit = u64::from(b - b'0');
        n = n.checked_mul(10)?.checked_add(digit)?;
    }
    Some(n)
}

pub fn budget_of(text: &[u8]) -> Option<u64>
    ensures { result ≡ budget_of text.now }
{
    if text == b"all".as_slice() {
        return Some(u64::MAX);
    }
    decimal_of(text)
}
