//! Numbers below a bound, drawn from the generator of storms.
#![tactic(auto)]

ghost use Rattle.std.specs.Prelude.{◌≡◌, ◌<◌, ◌%◌};
ghost use Rattle.rand_pcg.specs.Pcg.{pcg32};

use rand_pcg::Lcg64Xsh32;
use rand_pcg::rand_core::utils::NextWord;

/// The generator's next 32-bit word modulo `m`. Takes no memory.
pub fn draw(generator: &mut Lcg64Xsh32, m: u32) -> u32
    requires { 0 < m }
    ensures value { result ≡ (pcg32 generator.old).0 % m }
    ensures moved { generator.new ≡ (pcg32 generator.old).1 }
{
    generator.next_word() % m
}
