// Runs 01's "Roots and powers" on tables of arguments and writes a line for each answer: the
// function, the bits of its arguments, the bits of the answer. What it writes is held to the file
// stdout beside src/, which the proved code did not make: oracle/ works 01's steps a second time,
// and `cargo run --release --bin vectors` there writes that file, with `-- --tables` the tables.
#![tactic(auto)]

use base::floats::{from_pattern, to_pattern};
use powers::arc::arc;
use powers::exp::exp;
use powers::log::log;
use powers::power::{log10, power, ten};
use root::root;
use std::io;

const ARGUMENTS: [u64; 161] = [
    0x0000_0000_0000_0000, // +0
    0x8000_0000_0000_0000, // -0
    0x7ff8_0000_0000_0000, // a NaN
    0xfff0_0000_0000_0001, // a NaN of another pattern
    0x7ff0_0000_0000_0000, // +inf
    0xfff0_0000_0000_0000, // -inf
    0x7fef_ffff_ffff_ffff, // the largest finite
    0xffef_ffff_ffff_ffff, // minus the largest finite
    0x0000_0000_0000_0001, // the smallest subnormal
    0x8000_0000_0000_0001, // minus the smallest subnormal
    0x0000_0000_0000_0002, // 1e-323
    0x0000_0000_0000_0003, // 1.5e-323
    0x0007_ffff_ffff_ffff, // 1.1125369292536e-308
    0x0008_0000_0000_0000, // 1.1125369292536007e-308
    0x000b_504f_333f_9de6, // 2^-1023 root 2
    0x000b_504f_333f_9de7, // the next
    0x000f_ffff_ffff_ffff, // the largest subnormal
    0x0010_0000_0000_0000, // the smallest normal
    0x8010_0000_0000_0000, // minus the smallest normal
    0x3fef_ffff_ffff_ffff, // below 1, the arc's bound
    0x3ff0_0000_0000_0000, // 1, the arc's bound
    0x3ff0_0000_0000_0001, // above 1, the arc's bound
    0xbff0_0000_0000_0001, // below -1
    0xbff0_0000_0000_0000, // -1
    0xbfef_ffff_ffff_ffff, // above -1
    0x400f_ffff_ffff_ffff, // below 4, an exact square
    0x4010_0000_0000_0000, // 4, an exact square
    0x4010_0000_0000_0001, // above 4, an exact square
    0x4021_ffff_ffff_ffff, // below 9, an exact square
    0x4022_0000_0000_0000, // 9, an exact square
    0x4022_0000_0000_0001, // above 9, an exact square
    0x3ff6_a09e_667f_3bcc, // below root 2, the log's bound
    0x3ff6_a09e_667f_3bcd, // root 2, the log's bound
    0x3ff6_a09e_667f_3bce, // above root 2, the log's bound
    0x3fe6_a09e_667f_3bcc, // below root 2 / 2
    0x3fe6_a09e_667f_3bcd, // root 2 / 2
    0x3fe6_a09e_667f_3bce, // above root 2 / 2
    0x4096_a09e_667f_3bcc, // below 1024 root 2
    0x4096_a09e_667f_3bcd, // 1024 root 2
    0x4096_a09e_667f_3bce, // above 1024 root 2
    0x3fdf_ffff_ffff_ffff, // below 0.5
    0x3fe0_0000_0000_0000, // 0.5
    0x3fe0_0000_0000_0001, // above 0.5
    0xbfe0_0000_0000_0001, // below -0.5
    0xbfe0_0000_0000_0000, // -0.5
    0xbfdf_ffff_ffff_ffff, // above -0.5
    0x3ff7_ffff_ffff_ffff, // below 1.5
    0x3ff8_0000_0000_0000, // 1.5
    0x3ff8_0000_0000_0001, // above 1.5
    0xc004_0000_0000_0001, // below -2.5
    0xc004_0000_0000_0000, // -2.5
    0xc003_ffff_ffff_ffff, // above -2.5
    0x408f_ffff_ffff_ffff, // below 1024, the exp's upper bound
    0x4090_0000_0000_0000, // 1024, the exp's upper bound
    0x4090_0000_0000_0001, // above 1024, the exp's upper bound
    0x408f_fbff_ffff_ffff, // below 1023.5, where n is 1024
    0x408f_fc00_0000_0000, // 1023.5, where n is 1024
    0x408f_fc00_0000_0001, // above 1023.5, where n is 1024
    0xc08f_f000_0000_0001, // below -1022
    0xc08f_f000_0000_0000, // -1022
    0xc08f_efff_ffff_ffff, // above -1022
    0xc08f_f400_0000_0001, // below -1022.5
    0xc08f_f400_0000_0000, // -1022.5
    0xc08f_f3ff_ffff_ffff, // above -1022.5
    0xc090_c800_0000_0001, // below -1074
    0xc090_c800_0000_0000, // -1074
    0xc090_c7ff_ffff_ffff, // above -1074
    0xc090_ca00_0000_0001, // below -1074.5
    0xc090_ca00_0000_0000, // -1074.5
    0xc090_c9ff_ffff_ffff, // above -1074.5
    0xc090_cc00_0000_0001, // below -1075, half the smallest subnormal
    0xc090_cc00_0000_0000, // -1075, half the smallest subnormal
    0xc090_cbff_ffff_ffff, // above -1075, half the smallest subnormal
    0xc090_e000_0000_0001, // below -1080, the exp's lower bound
    0xc090_e000_0000_0000, // -1080, the exp's lower bound
    0xc090_dfff_ffff_ffff, // above -1080, the exp's lower bound
    0x4073_4413_509f_79fe, // below log10 of the largest finite
    0x4073_4413_509f_79ff, // log10 of the largest finite
    0x4073_4413_509f_7a00, // above log10 of the largest finite
    0x4035_ffff_ffff_ffff, // below 22, the last of ten's whole arguments
    0x4036_0000_0000_0000, // 22, the last of ten's whole arguments
    0x4036_0000_0000_0001, // above 22, the last of ten's whole arguments
    0xc036_0000_0000_0001, // below -22, the first of ten's whole arguments
    0xc036_0000_0000_0000, // -22, the first of ten's whole arguments
    0xc035_ffff_ffff_ffff, // above -22, the first of ten's whole arguments
    0x3ffd_407b_b364_1da5, // beside the square of a middle
    0x4005_b953_4497_2fe2, // beside the square of a middle
    0x3ff2_b035_c119_7f48, // beside the square of a middle
    0x3ff2_5656_5cad_cbf4, // beside the square of a middle
    0xc090_000d_9cd9_9424, // exp rounds once
    0xc090_052f_24f7_6782, // exp rounds once
    0xc090_08ca_1596_9a49, // exp rounds once
    0xc090_0dde_5b32_eb24, // exp rounds once
    0xc08f_ea66_6666_6666, // exp to a subnormal
    0xc090_1933_3333_3333, // exp to a subnormal
    0xc090_4000_0000_0000, // exp to a subnormal
    0xc090_42cc_cccc_cccd, // exp to a subnormal
    0xc090_8500_0000_0000, // exp to a subnormal
    0xc090_c533_3333_3333, // exp to a subnormal
    0xc090_c933_3333_3333, // exp to a subnormal
    0xc073_3b33_3333_3333, // ten to a subnormal and below
    0xc073_4000_0000_0000, // ten to a subnormal and below
    0xc073_b666_6666_6666, // ten to a subnormal and below
    0xc074_3000_0000_0000, // ten to a subnormal and below
    0xc074_34cc_cccc_cccd, // ten to a subnormal and below
    0xc074_3999_9999_999a, // ten to a subnormal and below
    0xc074_4000_0000_0000, // ten to a subnormal and below
    0xc074_5333_3333_3333, // ten to a subnormal and below
    0x4000_0000_0000_0000, // 2.0
    0x4008_0000_0000_0000, // 3.0
    0xc008_0000_0000_0000, // -3.0
    0x4024_0000_0000_0000, // 10.0
    0x3fb9_9999_9999_999a, // 0.1
    0xbfb9_9999_9999_999a, // -0.1
    0x3fd0_0000_0000_0000, // 0.25
    0x3fd3_3333_3333_3333, // 0.3
    0x4059_0000_0000_0000, // 100.0
    0x408f_4000_0000_0000, // 1000.0
    0x3f50_624d_d2f1_a9fc, // 0.001
    0x4415_af1d_78b5_8c40, // 1e20
    0xbbc7_9ca1_0c92_4223, // -1e-20
    0x7e37_e43c_8800_759c, // 1e300
    0x01a5_6e1f_c2f8_f359, // 1e-300
    0xc010_0000_0000_0000, // -4.0
    0x4073_4000_0000_0000, // 308.0
    0x408f_f800_0000_0000, // 1023.0
    0xc037_0000_0000_0000, // -23.0
    0xc035_0000_0000_0000, // -21.0
    0xc034_0000_0000_0000, // -20.0
    0xc033_0000_0000_0000, // -19.0
    0xc032_0000_0000_0000, // -18.0
    0xc031_0000_0000_0000, // -17.0
    0xc030_0000_0000_0000, // -16.0
    0xc02e_0000_0000_0000, // -15.0
    0xc02c_0000_0000_0000, // -14.0
    0xc02a_0000_0000_0000, // -13.0
    0xc028_0000_0000_0000, // -12.0
    0xc026_0000_0000_0000, // -11.0
    0xc024_0000_0000_0000, // -10.0
    0xc022_0000_0000_0000, // -9.0
    0xc020_0000_0000_0000, // -8.0
    0xc01c_0000_0000_0000, // -7.0
    0xc018_0000_0000_0000, // -6.0
    0xc014_0000_0000_0000, // -5.0
    0xc000_0000_0000_0000, // -2.0
    0x4014_0000_0000_0000, // 5.0
    0x4018_0000_0000_0000, // 6.0
    0x401c_0000_0000_0000, // 7.0
    0x4020_0000_0000_0000, // 8.0
    0x4026_0000_0000_0000, // 11.0
    0x4028_0000_0000_0000, // 12.0
    0x402a_0000_0000_0000, // 13.0
    0x402c_0000_0000_0000, // 14.0
    0x402e_0000_0000_0000, // 15.0
    0x4030_0000_0000_0000, // 16.0
    0x4031_0000_0000_0000, // 17.0
    0x4032_0000_0000_0000, // 18.0
    0x4033_0000_0000_0000, // 19.0
    0x4034_0000_0000_0000, // 20.0
    0x4035_0000_0000_0000, // 21.0
    0x4037_0000_0000_0000, // 23.0
];

const PAIRS: [u64; 190] = [
    0x3ff0_0000_0000_0000,
    0x7ff8_0000_0000_0000, // 1.0, NaN
    0x3ff0_0000_0000_0000,
    0x7ff0_0000_0000_0000, // 1.0, inf
    0x3ff0_0000_0000_0000,
    0xfff0_0000_0000_0000, // 1.0, -inf
    0x3ff0_0000_0000_0000,
    0x4016_0000_0000_0000, // 1.0, 5.5
    0x7ff8_0000_0000_0000,
    0x0000_0000_0000_0000, // NaN, 0.0
    0x7ff8_0000_0000_0000,
    0x8000_0000_0000_0000, // NaN, -0.0
    0x7ff8_0000_0000_0000,
    0x3ff0_0000_0000_0000, // NaN, 1.0
    0x7ff8_0000_0000_0000,
    0x7ff8_0000_0000_0000, // NaN, NaN
    0x4000_0000_0000_0000,
    0x7ff8_0000_0000_0000, // 2.0, NaN
    0x0000_0000_0000_0000,
    0x7ff8_0000_0000_0000, // 0.0, NaN
    0xbff0_0000_0000_0000,
    0x0000_0000_0000_0000, // -1.0, 0.0
    0xbff0_0000_0000_0000,
    0x3ff0_0000_0000_0000, // -1.0, 1.0
    0xbff0_0000_0000_0000,
    0x4000_0000_0000_0000, // -1.0, 2.0
    0xbff0_0000_0000_0000,
    0x7ff0_0000_0000_0000, // -1.0, inf
    0xc000_0000_0000_0000,
    0x4008_0000_0000_0000, // -2.0, 3.0
    0xc000_0000_0000_0000,
    0x8000_0000_0000_0000, // -2.0, -0.0
    0xc004_0000_0000_0000,
    0x3fe0_0000_0000_0000, // -2.5, 0.5
    0x8000_0000_0000_0001,
    0x4000_0000_0000_0000, // -5e-324, 2.0
    0xfff0_0000_0000_0000,
    0x0000_0000_0000_0000, // -inf, 0.0
    0xfff0_0000_0000_0000,
    0x3ff0_0000_0000_0000, // -inf, 1.0
    0xfff0_0000_0000_0000,
    0xbff0_0000_0000_0000, // -inf, -1.0
    0x0000_0000_0000_0000,
    0x0000_0000_0000_0000, // 0.0, 0.0
    0x0000_0000_0000_0000,
    0x8000_0000_0000_0000, // 0.0, -0.0
    0x0000_0000_0000_0000,
    0x3ff0_0000_0000_0000, // 0.0, 1.0
    0x0000_0000_0000_0000,
    0xbff0_0000_0000_0000, // 0.0, -1.0
    0x0000_0000_0000_0000,
    0x7ff0_0000_0000_0000, // 0.0, inf
    0x0000_0000_0000_0000,
    0xfff0_0000_0000_0000, // 0.0, -inf
    0x8000_0000_0000_0000,
    0x0000_0000_0000_0000, // -0.0, 0.0
    0x8000_0000_0000_0000,
    0x3ff0_0000_0000_0000, // -0.0, 1.0
    0x8000_0000_0000_0000,
    0xbff0_0000_0000_0000, // -0.0, -1.0
    0x8000_0000_0000_0000,
    0x4008_0000_0000_0000, // -0.0, 3.0
    0x8000_0000_0000_0000,
    0xc008_0000_0000_0000, // -0.0, -3.0
    0x7ff0_0000_0000_0000,
    0x0000_0000_0000_0000, // inf, 0.0
    0x7ff0_0000_0000_0000,
    0x3ff0_0000_0000_0000, // inf, 1.0
    0x7ff0_0000_0000_0000,
    0xbff0_0000_0000_0000, // inf, -1.0
    0x7ff0_0000_0000_0000,
    0x0000_0000_0000_0001, // inf, 5e-324
    0x7ff0_0000_0000_0000,
    0x7ff0_0000_0000_0000, // inf, inf
    0x7ff0_0000_0000_0000,
    0xfff0_0000_0000_0000, // inf, -inf
    0x3fe0_0000_0000_0000,
    0x7ff0_0000_0000_0000, // 0.5, inf
    0x3fe0_0000_0000_0000,
    0xfff0_0000_0000_0000, // 0.5, -inf
    0x4000_0000_0000_0000,
    0x7ff0_0000_0000_0000, // 2.0, inf
    0x4000_0000_0000_0000,
    0xfff0_0000_0000_0000, // 2.0, -inf
    0x3fef_ffff_ffff_ffff,
    0x7ff0_0000_0000_0000, // 0.9999999999999999, inf
    0x3ff0_0000_0000_0001,
    0xfff0_0000_0000_0000, // 1.0000000000000002, -inf
    0x3fef_ffff_ffff_ffff,
    0x43ab_c16d_674e_c800, // 0.9999999999999999, 1e18
    0x3ff0_0000_0000_0001,
    0x43ab_c16d_674e_c800, // 1.0000000000000002, 1e18
    0x3fef_ffff_ffff_ffff,
    0xc3ab_c16d_674e_c800, // 0.9999999999999999, -1e18
    0x3ff0_0000_0000_0001,
    0xc3ab_c16d_674e_c800, // 1.0000000000000002, -1e18
    0x3ff0_0000_0000_0001,
    0x4330_0000_0000_0000, // 1.0000000000000002, 4503599627370496.0
    0x3fef_ffff_ffff_ffff,
    0x3ff0_0000_0000_0000, // 0.9999999999999999, 1.0
    0x3ff0_0000_0000_0001,
    0x3ff0_0000_0000_0000, // 1.0000000000000002, 1.0
    0x7fef_ffff_ffff_ffff,
    0x3ff0_0000_0000_0000, // 1.7976931348623157e308, 1.0
    0x7fef_ffff_ffff_ffff,
    0xbff0_0000_0000_0000, // 1.7976931348623157e308, -1.0
    0x7fef_ffff_ffff_ffff,
    0x3ff0_0000_0000_0001, // 1.7976931348623157e308, 1.0000000000000002
    0x7fef_ffff_ffff_ffff,
    0x0000_0000_0000_0001, // 1.7976931348623157e308, 5e-324
    0x7fef_ffff_ffff_ffff,
    0x7fef_ffff_ffff_ffff, // 1.7976931348623157e308, 1.7976931348623157e308
    0x0000_0000_0000_0001,
    0x3ff0_0000_0000_0000, // 5e-324, 1.0
    0x0000_0000_0000_0001,
    0xbff0_0000_0000_0000, // 5e-324, -1.0
    0x0000_0000_0000_0001,
    0x3fe0_0000_0000_0000, // 5e-324, 0.5
    0x0000_0000_0000_0001,
    0x3ff0_03af_b7e9_0ff9, // 5e-324, 1.0009
    0x0010_0000_0000_0000,
    0x3ff0_0000_0000_0000, // 2.2250738585072014e-308, 1.0
    0x0010_0000_0000_0000,
    0xbff0_0000_0000_0000, // 2.2250738585072014e-308, -1.0
    0x4000_0000_0000_0000,
    0x3fe0_0000_0000_0000, // 2.0, 0.5
    0x4000_0000_0000_0000,
    0x4024_0000_0000_0000, // 2.0, 10.0
    0x4000_0000_0000_0000,
    0x408f_f800_0000_0000, // 2.0, 1023.0
    0x4000_0000_0000_0000,
    0x4090_0000_0000_0000, // 2.0, 1024.0
    0x4000_0000_0000_0000,
    0xc090_c800_0000_0000, // 2.0, -1074.0
    0x4000_0000_0000_0000,
    0xc090_cc00_0000_0000, // 2.0, -1075.0
    0x4000_0000_0000_0000,
    0xc090_e000_0000_0000, // 2.0, -1080.0
    0x4000_0000_0000_0000,
    0xc090_e400_0000_0000, // 2.0, -1081.0
    0x3fe0_0000_0000_0000,
    0x4090_c800_0000_0000, // 0.5, 1074.0
    0x3fe0_0000_0000_0000,
    0x4090_cc00_0000_0000, // 0.5, 1075.0
    0x3fe0_0000_0000_0000,
    0xc08f_f800_0000_0000, // 0.5, -1023.0
    0x3fe0_0000_0000_0000,
    0xc090_0000_0000_0000, // 0.5, -1024.0
    0x4010_0000_0000_0000,
    0x407f_fc00_0000_0000, // 4.0, 511.75
    0x4010_0000_0000_0000,
    0x4080_0000_0000_0000, // 4.0, 512.0
    0x4024_0000_0000_0000,
    0x3ff0_0000_0000_0000, // 10.0, 1.0
    0x4024_0000_0000_0000,
    0x4073_4000_0000_0000, // 10.0, 308.0
    0x4024_0000_0000_0000,
    0x4073_5000_0000_0000, // 10.0, 309.0
    0x4024_0000_0000_0000,
    0xc073_4000_0000_0000, // 10.0, -308.0
    0x4024_0000_0000_0000,
    0xc074_3000_0000_0000, // 10.0, -323.0
    0x4024_0000_0000_0000,
    0xc074_5000_0000_0000, // 10.0, -325.0
    0x4008_0000_0000_0000,
    0x4000_0000_0000_0000, // 3.0, 2.0
    0x4022_0000_0000_0000,
    0x3fe0_0000_0000_0000, // 9.0, 0.5
    0x401c_0000_0000_0000,
    0xbff0_0000_0000_0000, // 7.0, -1.0
    0x4004_0000_0000_0000,
    0xbff8_0000_0000_0000, // 2.5, -1.5
    0x3fb9_9999_9999_999a,
    0x401c_0000_0000_0000, // 0.1, 7.0
    0x01a5_6e1f_c2f8_f359,
    0x3f84_7ae1_47ae_147b, // 1e-300, 0.01
    0x7e37_e43c_8800_759c,
    0xbf84_7ae1_47ae_147b, // 1e300, -0.01
    0x4014_0000_0000_0000,
    0x0000_0000_0000_0001, // 5.0, 5e-324
    0x3ff0_0000_0000_0000,
    0xbffb_3333_3333_3333, // 1.0, -1.7
    0x3ff0_0001_0c6f_7a0b,
    0xbffb_3333_3333_3333, // 1.000001, -1.7
    0x3ff4_0000_0000_0000,
    0xbffb_3333_3333_3333, // 1.25, -1.7
    0x4024_0000_0000_0000,
    0xbffb_3333_3333_3333, // 10.0, -1.7
    0x4197_d784_0400_0000,
    0xbffb_3333_3333_3333, // 100000001.0, -1.7
];

// Writes the line of a function of one argument.
fn put_line(rt: &impl Print, name: &str, argument: u64, answer: f64) -> io::Result<()> {
    let answer = to_pattern(answer);
    print!(rt; "{name} {argument:016x} {answer:016x}\n")
}

// Writes the lines of the six functions of one argument.
fn put_six(rt: &impl Print, argument: u64) -> io::Result<()> {
    let x = from_pattern(argument);
    put_line(rt, "root", argument, root(x))?;
    put_line(rt, "arc", argument, arc(x))?;
    put_line(rt, "log", argument, log(x))?;
    put_line(rt, "exp", argument, exp(x))?;
    put_line(rt, "ten", argument, ten(x))?;
    put_line(rt, "log10", argument, log10(x))
}

// Writes the line of the power b to the y.
fn put_power(rt: &impl Print, b: u64, y: u64) -> io::Result<()> {
    let answer = to_pattern(power(from_pattern(b), from_pattern(y)));
    print!(rt; "power {b:016x} {y:016x} {answer:016x}\n")
}

fn main(rt: HostRuntime) -> io::Result<()> {
    for argument in &ARGUMENTS {
        put_six(&rt, *argument)?;
    }
    for pair in PAIRS.chunks_exact(2) {
        put_power(&rt, pair[0], pair[1])?;
    }
    Ok(())
}
