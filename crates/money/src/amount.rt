ghost use Rattle.std.specs.Prelude.{◌≡◌, ◌+◌, ◌^◌, ◌≤◌, pos, ◌+ℤ◌, ◌*ℤ◌, unsigned_abs};
ghost use Rattle.std.specs.Int.{saturate_to_bits};
ghost use Rattle.money.specs.Amounts.{or_zero};
ghost use Rattle.money.specs.Rounding.{rounded, Nearest};

// Thousandths of a cent to the nearest cent, a half going away from zero.
pub fn round_cents(thousandths: i64) -> i64
    ensures value { result ≡ rounded thousandths }
    ensures nearest { Nearest thousandths result }
{
    let cents = ((thousandths.unsigned_abs() + 500) / 1000) as i64;
    if thousandths < 0 { -cents } else { cents }
}

// Energy at a price, in thousandths of a cent. Any two such numbers have a product within i64.
pub fn product(kwh: i32, price: i32) -> i64
    ensures { result ≡ kwh *ℤ price }
{
    i64::from(kwh) * i64::from(price)
}

// The same of energy that is not signed; one function over both kinds would be longer than the two.
pub fn cost(kwh: u32, price: i32) -> i64
    ensures { result ≡ pos kwh *ℤ price }
{
    let quantity = i64::from(kwh);
    quantity * i64::from(price)
}

// The amount, or nothing where it is below zero.
pub fn or_zero(amount: i64) -> u64
    ensures { result ≡ or_zero amount }
{
    u64::try_from(amount).unwrap_or(0)
}

// A sum of two amounts, held at the ends of i64. Sums of a day stay far from them.
pub fn plus(a: i64, b: i64) -> i64
    ensures value { result ≡ saturate_to_bits 63 (a +ℤ b) }
    ensures exact { unsigned_abs a ≤ 2 ^ 60 → unsigned_abs b ≤ 2 ^ 60 → result ≡ a +ℤ b }
    ensures bound { unsigned_abs result ≤ unsigned_abs a + unsigned_abs b }
{
    a.saturating_add(b)
}
