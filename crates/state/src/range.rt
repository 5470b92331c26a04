// The test for a range, and a test of each number of one, which several crates make.
ghost use Rattle.std.specs.Prelude.{◌≡◌};
ghost use Rattle.reference.specs.Lists.{in_range};
ghost use Rattle.state.specs.Each.{IsEach};

// lo <= n <= hi.
pub fn in_range(lo: u8, hi: u8, n: u8) -> bool
    ensures { result ≡ in_range lo hi n }
{
    (lo <= n) & (n <= hi)
}

// The test holds of the n numbers from lo on, none of them above 255.
pub fn each<F: Fn(u8) -> bool>(lo: u8, n: u8, test: F) -> bool
    requires { F.IsAlwaysCallable test }
    ensures { IsEach (λ i b. F.post test i b) lo n result }
{
    for i in 0..n {
        if !test(lo.wrapping_add(i)) {
            return false;
        }
    }
    true
}
