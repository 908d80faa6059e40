use dy_draws::draw;
use rand_pcg::Lcg64Xsh32;

// The words are those that the generator's own C code prints for seed 42 and stream 54.
#[test]
fn draws_the_published_words(rt: HostRuntime) {
    let mut generator = Lcg64Xsh32::new(42, 54);
    for word in [
        0xa15c_02b7u32,
        0x7b47_f409,
        0xba1d_3330,
        0x83d2_f293,
        0xbfa4_784b,
        0xcbed_606e,
    ] {
        assert_eq!(rt; draw(&mut generator, 1000), word % 1000);
    }
}
