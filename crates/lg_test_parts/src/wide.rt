// Products and quotients of double words, and parts of words, against values computed with integers of any size.

use lg_base::wide::{
    div_wide, div_wide_u, mul_high, mul_high_mixed, mul_high_u, sign_part, swap_bytes, zero_part,
};

// The tables have a row a line, of words in hexadecimal digits. The factors and dividends are 0, 1, -1, -2, the least and greatest signed
// words and a neighbor, and 2^31 and 2^32 with their neighbors.

// Two words, and the high words of their unsigned product, of their signed product, and of the product of the first with its sign
// by the second without.
const PRODUCTS: &str = "0 0 0 0 0\n\
    0 1 0 0 0\n\
    0 ffffffffffffffff 0 0 0\n\
    0 fffffffffffffffe 0 0 0\n\
    0 8000000000000000 0 0 0\n\
    0 7fffffffffffffff 0 0 0\n\
    0 8000000000000001 0 0 0\n\
    0 7fffffff 0 0 0\n\
    0 80000000 0 0 0\n\
    0 80000001 0 0 0\n\
    0 ffffffff 0 0 0\n\
    0 100000000 0 0 0\n\
    0 100000001 0 0 0\n\
    1 0 0 0 0\n\
    1 1 0 0 0\n\
    1 ffffffffffffffff 0 ffffffffffffffff 0\n\
    1 fffffffffffffffe 0 ffffffffffffffff 0\n\
    1 8000000000000000 0 ffffffffffffffff 0\n\
    1 7fffffffffffffff 0 0 0\n\
    1 8000000000000001 0 ffffffffffffffff 0\n\
    1 7fffffff 0 0 0\n\
    1 80000000 0 0 0\n\
    1 80000001 0 0 0\n\
    1 ffffffff 0 0 0\n\
    1 100000000 0 0 0\n\
    1 100000001 0 0 0\n\
    ffffffffffffffff 0 0 0 0\n\
    ffffffffffffffff 1 0 ffffffffffffffff ffffffffffffffff\n\
    ffffffffffffffff ffffffffffffffff fffffffffffffffe 0 ffffffffffffffff\n\
    ffffffffffffffff fffffffffffffffe fffffffffffffffd 0 ffffffffffffffff\n\
    ffffffffffffffff 8000000000000000 7fffffffffffffff 0 ffffffffffffffff\n\
    ffffffffffffffff 7fffffffffffffff 7ffffffffffffffe ffffffffffffffff ffffffffffffffff\n\
    ffffffffffffffff 8000000000000001 8000000000000000 0 ffffffffffffffff\n\
    ffffffffffffffff 7fffffff 7ffffffe ffffffffffffffff ffffffffffffffff\n\
    ffffffffffffffff 80000000 7fffffff ffffffffffffffff ffffffffffffffff\n\
    ffffffffffffffff 80000001 80000000 ffffffffffffffff ffffffffffffffff\n\
    ffffffffffffffff ffffffff fffffffe ffffffffffffffff ffffffffffffffff\n\
    ffffffffffffffff 100000000 ffffffff ffffffffffffffff ffffffffffffffff\n\
    ffffffffffffffff 100000001 100000000 ffffffffffffffff ffffffffffffffff\n\
    fffffffffffffffe 0 0 0 0\n\
    fffffffffffffffe 1 0 ffffffffffffffff ffffffffffffffff\n\
    fffffffffffffffe ffffffffffffffff fffffffffffffffd 0 fffffffffffffffe\n\
    fffffffffffffffe fffffffffffffffe fffffffffffffffc 0 fffffffffffffffe\n\
    fffffffffffffffe 8000000000000000 7fffffffffffffff 1 ffffffffffffffff\n\
    fffffffffffffffe 7fffffffffffffff 7ffffffffffffffe ffffffffffffffff ffffffffffffffff\n\
    fffffffffffffffe 8000000000000001 7fffffffffffffff 0 fffffffffffffffe\n\
    fffffffffffffffe 7fffffff 7ffffffe ffffffffffffffff ffffffffffffffff\n\
    fffffffffffffffe 80000000 7fffffff ffffffffffffffff ffffffffffffffff\n\
    fffffffffffffffe 80000001 80000000 ffffffffffffffff ffffffffffffffff\n\
    fffffffffffffffe ffffffff fffffffe ffffffffffffffff ffffffffffffffff\n\
    fffffffffffffffe 100000000 ffffffff ffffffffffffffff ffffffffffffffff\n\
    fffffffffffffffe 100000001 100000000 ffffffffffffffff ffffffffffffffff\n\
    8000000000000000 0 0 0 0\n\
    8000000000000000 1 0 ffffffffffffffff ffffffffffffffff\n\
    8000000000000000 ffffffffffffffff 7fffffffffffffff 0 8000000000000000\n\
    8000000000000000 fffffffffffffffe 7fffffffffffffff 1 8000000000000001\n\
    8000000000000000 8000000000000000 4000000000000000 4000000000000000 c000000000000000\n\
    8000000000000000 7fffffffffffffff 3fffffffffffffff c000000000000000 c000000000000000\n\
    8000000000000000 8000000000000001 4000000000000000 3fffffffffffffff bfffffffffffffff\n\
    8000000000000000 7fffffff 3fffffff ffffffffc0000000 ffffffffc0000000\n\
    8000000000000000 80000000 40000000 ffffffffc0000000 ffffffffc0000000\n\
    8000000000000000 80000001 40000000 ffffffffbfffffff ffffffffbfffffff\n\
    8000000000000000 ffffffff 7fffffff ffffffff80000000 ffffffff80000000\n\
    8000000000000000 100000000 80000000 ffffffff80000000 ffffffff80000000\n\
    8000000000000000 100000001 80000000 ffffffff7fffffff ffffffff7fffffff\n\
    7fffffffffffffff 0 0 0 0\n\
    7fffffffffffffff 1 0 0 0\n\
    7fffffffffffffff ffffffffffffffff 7ffffffffffffffe ffffffffffffffff 7ffffffffffffffe\n\
    7fffffffffffffff fffffffffffffffe 7ffffffffffffffe ffffffffffffffff 7ffffffffffffffe\n\
    7fffffffffffffff 8000000000000000 3fffffffffffffff c000000000000000 3fffffffffffffff\n\
    7fffffffffffffff 7fffffffffffffff 3fffffffffffffff 3fffffffffffffff 3fffffffffffffff\n\
    7fffffffffffffff 8000000000000001 3fffffffffffffff c000000000000000 3fffffffffffffff\n\
    7fffffffffffffff 7fffffff 3fffffff 3fffffff 3fffffff\n\
    7fffffffffffffff 80000000 3fffffff 3fffffff 3fffffff\n\
    7fffffffffffffff 80000001 40000000 40000000 40000000\n\
    7fffffffffffffff ffffffff 7fffffff 7fffffff 7fffffff\n\
    7fffffffffffffff 100000000 7fffffff 7fffffff 7fffffff\n\
    7fffffffffffffff 100000001 80000000 80000000 80000000\n\
    8000000000000001 0 0 0 0\n\
    8000000000000001 1 0 ffffffffffffffff ffffffffffffffff\n\
    8000000000000001 ffffffffffffffff 8000000000000000 0 8000000000000001\n\
    8000000000000001 fffffffffffffffe 7fffffffffffffff 0 8000000000000001\n\
    8000000000000001 8000000000000000 4000000000000000 3fffffffffffffff c000000000000000\n\
    8000000000000001 7fffffffffffffff 3fffffffffffffff c000000000000000 c000000000000000\n\
    8000000000000001 8000000000000001 4000000000000001 3fffffffffffffff c000000000000000\n\
    8000000000000001 7fffffff 3fffffff ffffffffc0000000 ffffffffc0000000\n\
    8000000000000001 80000000 40000000 ffffffffc0000000 ffffffffc0000000\n\
    8000000000000001 80000001 40000000 ffffffffbfffffff ffffffffbfffffff\n\
    8000000000000001 ffffffff 7fffffff ffffffff80000000 ffffffff80000000\n\
    8000000000000001 100000000 80000000 ffffffff80000000 ffffffff80000000\n\
    8000000000000001 100000001 80000000 ffffffff7fffffff ffffffff7fffffff\n\
    7fffffff 0 0 0 0\n\
    7fffffff 1 0 0 0\n\
    7fffffff ffffffffffffffff 7ffffffe ffffffffffffffff 7ffffffe\n\
    7fffffff fffffffffffffffe 7ffffffe ffffffffffffffff 7ffffffe\n\
    7fffffff 8000000000000000 3fffffff ffffffffc0000000 3fffffff\n\
    7fffffff 7fffffffffffffff 3fffffff 3fffffff 3fffffff\n\
    7fffffff 8000000000000001 3fffffff ffffffffc0000000 3fffffff\n\
    7fffffff 7fffffff 0 0 0\n\
    7fffffff 80000000 0 0 0\n\
    7fffffff 80000001 0 0 0\n\
    7fffffff ffffffff 0 0 0\n\
    7fffffff 100000000 0 0 0\n\
    7fffffff 100000001 0 0 0\n\
    80000000 0 0 0 0\n\
    80000000 1 0 0 0\n\
    80000000 ffffffffffffffff 7fffffff ffffffffffffffff 7fffffff\n\
    80000000 fffffffffffffffe 7fffffff ffffffffffffffff 7fffffff\n\
    80000000 8000000000000000 40000000 ffffffffc0000000 40000000\n\
    80000000 7fffffffffffffff 3fffffff 3fffffff 3fffffff\n\
    80000000 8000000000000001 40000000 ffffffffc0000000 40000000\n\
    80000000 7fffffff 0 0 0\n\
    80000000 80000000 0 0 0\n\
    80000000 80000001 0 0 0\n\
    80000000 ffffffff 0 0 0\n\
    80000000 100000000 0 0 0\n\
    80000000 100000001 0 0 0\n\
    80000001 0 0 0 0\n\
    80000001 1 0 0 0\n\
    80000001 ffffffffffffffff 80000000 ffffffffffffffff 80000000\n\
    80000001 fffffffffffffffe 80000000 ffffffffffffffff 80000000\n\
    80000001 8000000000000000 40000000 ffffffffbfffffff 40000000\n\
    80000001 7fffffffffffffff 40000000 40000000 40000000\n\
    80000001 8000000000000001 40000000 ffffffffbfffffff 40000000\n\
    80000001 7fffffff 0 0 0\n\
    80000001 80000000 0 0 0\n\
    80000001 80000001 0 0 0\n\
    80000001 ffffffff 0 0 0\n\
    80000001 100000000 0 0 0\n\
    80000001 100000001 0 0 0\n\
    ffffffff 0 0 0 0\n\
    ffffffff 1 0 0 0\n\
    ffffffff ffffffffffffffff fffffffe ffffffffffffffff fffffffe\n\
    ffffffff fffffffffffffffe fffffffe ffffffffffffffff fffffffe\n\
    ffffffff 8000000000000000 7fffffff ffffffff80000000 7fffffff\n\
    ffffffff 7fffffffffffffff 7fffffff 7fffffff 7fffffff\n\
    ffffffff 8000000000000001 7fffffff ffffffff80000000 7fffffff\n\
    ffffffff 7fffffff 0 0 0\n\
    ffffffff 80000000 0 0 0\n\
    ffffffff 80000001 0 0 0\n\
    ffffffff ffffffff 0 0 0\n\
    ffffffff 100000000 0 0 0\n\
    ffffffff 100000001 0 0 0\n\
    100000000 0 0 0 0\n\
    100000000 1 0 0 0\n\
    100000000 ffffffffffffffff ffffffff ffffffffffffffff ffffffff\n\
    100000000 fffffffffffffffe ffffffff ffffffffffffffff ffffffff\n\
    100000000 8000000000000000 80000000 ffffffff80000000 80000000\n\
    100000000 7fffffffffffffff 7fffffff 7fffffff 7fffffff\n\
    100000000 8000000000000001 80000000 ffffffff80000000 80000000\n\
    100000000 7fffffff 0 0 0\n\
    100000000 80000000 0 0 0\n\
    100000000 80000001 0 0 0\n\
    100000000 ffffffff 0 0 0\n\
    100000000 100000000 1 1 1\n\
    100000000 100000001 1 1 1\n\
    100000001 0 0 0 0\n\
    100000001 1 0 0 0\n\
    100000001 ffffffffffffffff 100000000 ffffffffffffffff 100000000\n\
    100000001 fffffffffffffffe 100000000 ffffffffffffffff 100000000\n\
    100000001 8000000000000000 80000000 ffffffff7fffffff 80000000\n\
    100000001 7fffffffffffffff 80000000 80000000 80000000\n\
    100000001 8000000000000001 80000000 ffffffff7fffffff 80000000\n\
    100000001 7fffffff 0 0 0\n\
    100000001 80000000 0 0 0\n\
    100000001 80000001 0 0 0\n\
    100000001 ffffffff 0 0 0\n\
    100000001 100000000 1 1 1\n\
    100000001 100000001 1 1 1";

// The high and the low word of a dividend and a divisor without signs, and quotient and remainder where the quotient fits.
const QUOTIENTS: &str = "0 0 1 0 0\n\
    0 0 ffffffffffffffff 0 0\n\
    0 0 8000000000000000 0 0\n\
    0 0 7fffffffffffffff 0 0\n\
    0 0 ffffffff 0 0\n\
    0 1 1 1 0\n\
    0 1 ffffffffffffffff 0 1\n\
    0 1 8000000000000000 0 1\n\
    0 1 7fffffffffffffff 0 1\n\
    0 1 ffffffff 0 1\n\
    0 ffffffffffffffff 1 ffffffffffffffff 0\n\
    0 ffffffffffffffff ffffffffffffffff 1 0\n\
    0 ffffffffffffffff 8000000000000000 1 7fffffffffffffff\n\
    0 ffffffffffffffff 7fffffffffffffff 2 1\n\
    0 ffffffffffffffff ffffffff 100000001 0\n\
    0 8000000000000000 1 8000000000000000 0\n\
    0 8000000000000000 ffffffffffffffff 0 8000000000000000\n\
    0 8000000000000000 8000000000000000 1 0\n\
    0 8000000000000000 7fffffffffffffff 1 1\n\
    0 8000000000000000 ffffffff 80000000 80000000\n\
    1 0 ffffffffffffffff 1 1\n\
    1 0 8000000000000000 2 0\n\
    1 0 7fffffffffffffff 2 2\n\
    1 0 ffffffff 100000001 1\n\
    1 1 ffffffffffffffff 1 2\n\
    1 1 8000000000000000 2 1\n\
    1 1 7fffffffffffffff 2 3\n\
    1 1 ffffffff 100000001 2\n\
    1 ffffffffffffffff ffffffffffffffff 2 1\n\
    1 ffffffffffffffff 8000000000000000 3 7fffffffffffffff\n\
    1 ffffffffffffffff 7fffffffffffffff 4 3\n\
    1 ffffffffffffffff ffffffff 200000002 1\n\
    1 8000000000000000 ffffffffffffffff 1 8000000000000001\n\
    1 8000000000000000 8000000000000000 3 0\n\
    1 8000000000000000 7fffffffffffffff 3 3\n\
    1 8000000000000000 ffffffff 180000001 80000001\n\
    8000000000000000 0 ffffffffffffffff 8000000000000000 8000000000000000\n\
    8000000000000000 1 ffffffffffffffff 8000000000000000 8000000000000001\n\
    8000000000000000 ffffffffffffffff ffffffffffffffff 8000000000000001 8000000000000000\n\
    8000000000000000 8000000000000000 ffffffffffffffff 8000000000000001 1\n\
    7fffffffffffffff 0 ffffffffffffffff 7fffffffffffffff 7fffffffffffffff\n\
    7fffffffffffffff 0 8000000000000000 fffffffffffffffe 0\n\
    7fffffffffffffff 1 ffffffffffffffff 7fffffffffffffff 8000000000000000\n\
    7fffffffffffffff 1 8000000000000000 fffffffffffffffe 1\n\
    7fffffffffffffff ffffffffffffffff ffffffffffffffff 8000000000000000 7fffffffffffffff\n\
    7fffffffffffffff ffffffffffffffff 8000000000000000 ffffffffffffffff 7fffffffffffffff\n\
    7fffffffffffffff 8000000000000000 ffffffffffffffff 8000000000000000 0\n\
    7fffffffffffffff 8000000000000000 8000000000000000 ffffffffffffffff 0\n\
    80000000 0 ffffffffffffffff 80000000 80000000\n\
    80000000 0 8000000000000000 100000000 0\n\
    80000000 0 7fffffffffffffff 100000000 100000000\n\
    80000000 0 ffffffff 8000000080000000 80000000\n\
    80000000 1 ffffffffffffffff 80000000 80000001\n\
    80000000 1 8000000000000000 100000000 1\n\
    80000000 1 7fffffffffffffff 100000000 100000001\n\
    80000000 1 ffffffff 8000000080000000 80000001\n\
    80000000 ffffffffffffffff ffffffffffffffff 80000001 80000000\n\
    80000000 ffffffffffffffff 8000000000000000 100000001 7fffffffffffffff\n\
    80000000 ffffffffffffffff 7fffffffffffffff 100000002 100000001\n\
    80000000 ffffffffffffffff ffffffff 8000000180000001 80000000\n\
    80000000 8000000000000000 ffffffffffffffff 80000000 8000000080000000\n\
    80000000 8000000000000000 8000000000000000 100000001 0\n\
    80000000 8000000000000000 7fffffffffffffff 100000001 100000001\n\
    80000000 8000000000000000 ffffffff 8000000100000001 1\n\
    100000001 0 ffffffffffffffff 100000001 100000001\n\
    100000001 0 8000000000000000 200000002 0\n\
    100000001 0 7fffffffffffffff 200000002 200000002\n\
    100000001 1 ffffffffffffffff 100000001 100000002\n\
    100000001 1 8000000000000000 200000002 1\n\
    100000001 1 7fffffffffffffff 200000002 200000003\n\
    100000001 ffffffffffffffff ffffffffffffffff 100000002 100000001\n\
    100000001 ffffffffffffffff 8000000000000000 200000003 7fffffffffffffff\n\
    100000001 ffffffffffffffff 7fffffffffffffff 200000004 200000003\n\
    100000001 8000000000000000 ffffffffffffffff 100000001 8000000100000001\n\
    100000001 8000000000000000 8000000000000000 200000003 0\n\
    100000001 8000000000000000 7fffffffffffffff 200000003 200000003\n\
    0 0 0\n\
    1 0 0\n\
    1 ffffffffffffffff 0\n\
    ffffffffffffffff 0 0\n\
    ffffffffffffffff 0 7fffffffffffffff\n\
    ffffffffffffffff 1 ffffffffffffffff\n\
    ffffffffffffffff ffffffffffffffff 0\n\
    ffffffffffffffff ffffffffffffffff 7fffffffffffffff\n\
    ffffffffffffffff 8000000000000000 ffffffffffffffff\n\
    8000000000000000 0 0\n\
    8000000000000000 0 ffffffff\n\
    8000000000000000 1 7fffffffffffffff\n\
    8000000000000000 ffffffffffffffff 8000000000000000\n\
    8000000000000000 8000000000000000 1\n\
    7fffffffffffffff 0 0\n\
    7fffffffffffffff 1 0\n\
    7fffffffffffffff ffffffffffffffff 0\n\
    7fffffffffffffff 8000000000000000 0\n\
    80000000 0 0\n\
    80000000 ffffffffffffffff 0\n\
    100000001 0 0\n\
    100000001 1 1\n\
    100000001 ffffffffffffffff ffffffff";

// The same with signs.
const SIGNED_QUOTIENTS: &str = "0 0 1 0 0\n\
    0 0 ffffffffffffffff 0 0\n\
    0 0 8000000000000000 0 0\n\
    0 0 7fffffffffffffff 0 0\n\
    0 0 ffffffff 0 0\n\
    0 1 1 1 0\n\
    0 1 ffffffffffffffff ffffffffffffffff 0\n\
    0 1 8000000000000000 0 1\n\
    0 1 7fffffffffffffff 0 1\n\
    0 1 ffffffff 0 1\n\
    0 ffffffffffffffff 8000000000000000 ffffffffffffffff 7fffffffffffffff\n\
    0 ffffffffffffffff 7fffffffffffffff 2 1\n\
    0 ffffffffffffffff ffffffff 100000001 0\n\
    0 8000000000000000 ffffffffffffffff 8000000000000000 0\n\
    0 8000000000000000 8000000000000000 ffffffffffffffff 0\n\
    0 8000000000000000 7fffffffffffffff 1 1\n\
    0 8000000000000000 ffffffff 80000000 80000000\n\
    1 0 8000000000000000 fffffffffffffffe 0\n\
    1 0 7fffffffffffffff 2 2\n\
    1 0 ffffffff 100000001 1\n\
    1 1 8000000000000000 fffffffffffffffe 1\n\
    1 1 7fffffffffffffff 2 3\n\
    1 1 ffffffff 100000001 2\n\
    1 ffffffffffffffff 8000000000000000 fffffffffffffffd 7fffffffffffffff\n\
    1 ffffffffffffffff 7fffffffffffffff 4 3\n\
    1 ffffffffffffffff ffffffff 200000002 1\n\
    1 8000000000000000 8000000000000000 fffffffffffffffd 0\n\
    1 8000000000000000 7fffffffffffffff 3 3\n\
    1 8000000000000000 ffffffff 180000001 80000001\n\
    ffffffffffffffff 0 8000000000000000 2 0\n\
    ffffffffffffffff 0 7fffffffffffffff fffffffffffffffe fffffffffffffffe\n\
    ffffffffffffffff 0 ffffffff fffffffeffffffff ffffffffffffffff\n\
    ffffffffffffffff 1 8000000000000000 1 8000000000000001\n\
    ffffffffffffffff 1 7fffffffffffffff fffffffffffffffe ffffffffffffffff\n\
    ffffffffffffffff 1 ffffffff fffffffeffffffff 0\n\
    ffffffffffffffff ffffffffffffffff 1 ffffffffffffffff 0\n\
    ffffffffffffffff ffffffffffffffff ffffffffffffffff 1 0\n\
    ffffffffffffffff ffffffffffffffff 8000000000000000 0 ffffffffffffffff\n\
    ffffffffffffffff ffffffffffffffff 7fffffffffffffff 0 ffffffffffffffff\n\
    ffffffffffffffff ffffffffffffffff ffffffff 0 ffffffffffffffff\n\
    ffffffffffffffff 8000000000000000 1 8000000000000000 0\n\
    ffffffffffffffff 8000000000000000 8000000000000000 1 0\n\
    ffffffffffffffff 8000000000000000 7fffffffffffffff ffffffffffffffff ffffffffffffffff\n\
    ffffffffffffffff 8000000000000000 ffffffff ffffffff80000000 ffffffff80000000\n\
    80000000 0 8000000000000000 ffffffff00000000 0\n\
    80000000 0 7fffffffffffffff 100000000 100000000\n\
    80000000 1 8000000000000000 ffffffff00000000 1\n\
    80000000 1 7fffffffffffffff 100000000 100000001\n\
    80000000 ffffffffffffffff 8000000000000000 fffffffeffffffff 7fffffffffffffff\n\
    80000000 ffffffffffffffff 7fffffffffffffff 100000002 100000001\n\
    80000000 8000000000000000 8000000000000000 fffffffeffffffff 0\n\
    80000000 8000000000000000 7fffffffffffffff 100000001 100000001\n\
    100000001 0 8000000000000000 fffffffdfffffffe 0\n\
    100000001 0 7fffffffffffffff 200000002 200000002\n\
    100000001 1 8000000000000000 fffffffdfffffffe 1\n\
    100000001 1 7fffffffffffffff 200000002 200000003\n\
    100000001 ffffffffffffffff 8000000000000000 fffffffdfffffffd 7fffffffffffffff\n\
    100000001 ffffffffffffffff 7fffffffffffffff 200000004 200000003\n\
    100000001 8000000000000000 8000000000000000 fffffffdfffffffd 0\n\
    100000001 8000000000000000 7fffffffffffffff 200000003 200000003\n\
    0 0 0\n\
    0 ffffffffffffffff ffffffffffffffff\n\
    1 0 1\n\
    1 1 ffffffffffffffff\n\
    1 8000000000000000 0\n\
    ffffffffffffffff 0 1\n\
    ffffffffffffffff 1 ffffffffffffffff\n\
    8000000000000000 0 0\n\
    8000000000000000 0 7fffffffffffffff\n\
    8000000000000000 1 ffffffffffffffff\n\
    8000000000000000 ffffffffffffffff 0\n\
    8000000000000000 ffffffffffffffff 7fffffffffffffff\n\
    8000000000000000 8000000000000000 ffffffffffffffff\n\
    7fffffffffffffff 0 0\n\
    7fffffffffffffff 0 7fffffffffffffff\n\
    7fffffffffffffff 1 ffffffffffffffff\n\
    7fffffffffffffff ffffffffffffffff 0\n\
    7fffffffffffffff ffffffffffffffff 7fffffffffffffff\n\
    7fffffffffffffff 8000000000000000 ffffffffffffffff\n\
    80000000 0 0\n\
    80000000 1 0\n\
    80000000 ffffffffffffffff 0\n\
    80000000 8000000000000000 0\n\
    100000001 0 0\n\
    100000001 1 0\n\
    100000001 ffffffffffffffff 0\n\
    100000001 8000000000000000 0";

// A word, a number of bytes, and its low bytes with zeros, with their sign, and in the other order.
const PARTS: &str = "0 1 0 0 0\n\
    0 2 0 0 0\n\
    0 4 0 0 0\n\
    0 8 0 0 0\n\
    f1e2d3c4b5a69788 1 88 ffffffffffffff88 88\n\
    f1e2d3c4b5a69788 2 9788 ffffffffffff9788 8897\n\
    f1e2d3c4b5a69788 4 b5a69788 ffffffffb5a69788 8897a6b5\n\
    f1e2d3c4b5a69788 8 f1e2d3c4b5a69788 f1e2d3c4b5a69788 8897a6b5c4d3e2f1\n\
    80 1 80 ffffffffffffff80 80\n\
    80 2 80 80 8000\n\
    80 4 80 80 80000000\n\
    80 8 80 80 8000000000000000\n\
    7fff 1 ff ffffffffffffffff ff\n\
    7fff 2 7fff 7fff ff7f\n\
    7fff 4 7fff 7fff ff7f0000\n\
    7fff 8 7fff 7fff ff7f000000000000\n\
    7fffffff 1 ff ffffffffffffffff ff\n\
    7fffffff 2 ffff ffffffffffffffff ffff\n\
    7fffffff 4 7fffffff 7fffffff ffffff7f\n\
    7fffffff 8 7fffffff 7fffffff ffffff7f00000000\n\
    ffffffffffffffff 1 ff ffffffffffffffff ff\n\
    ffffffffffffffff 2 ffff ffffffffffffffff ffff\n\
    ffffffffffffffff 4 ffffffff ffffffffffffffff ffffffff\n\
    ffffffffffffffff 8 ffffffffffffffff ffffffffffffffff ffffffffffffffff\n\
    8000000000000000 1 0 0 0\n\
    8000000000000000 2 0 0 0\n\
    8000000000000000 4 0 0 0\n\
    8000000000000000 8 8000000000000000 8000000000000000 80";

// Reads the words of a row, and returns how many there are: 0 where they are more than five, or one is no word.
fn read_words(row: &str, words: &mut [u64; 5]) -> usize {
    let mut count = 0;
    for digits in row.split(' ') {
        match u64::from_str_radix(digits, 16) {
            Ok(word) if count < 5 => words[count] = word,
            _ => return 0,
        }
        count += 1;
    }
    count
}

fn is_product(row: &[u64]) -> bool {
    match row {
        [a, b, unsigned, signed, mixed] => {
            mul_high_u(*a, *b) == *unsigned
                && mul_high(a.cast_signed(), b.cast_signed()).cast_unsigned() == *signed
                && mul_high_mixed(*a, *b) == *mixed
        }
        _ => false,
    }
}

fn is_quotient(row: &[u64]) -> bool {
    match row {
        [high, low, by, quotient, remainder] => {
            div_wide_u(*high, *low, *by) == Some((*quotient, *remainder))
        }
        [high, low, by] => div_wide_u(*high, *low, *by) == None,
        _ => false,
    }
}

fn is_signed_quotient(row: &[u64]) -> bool {
    match row {
        [high, low, by, quotient, remainder] => {
            let wanted = Some((quotient.cast_signed(), remainder.cast_signed()));
            div_wide(high.cast_signed(), *low, by.cast_signed()) == wanted
        }
        [high, low, by] => div_wide(high.cast_signed(), *low, by.cast_signed()) == None,
        _ => false,
    }
}

fn are_parts(row: &[u64]) -> bool {
    match row {
        [word, bytes @ (1 | 2 | 4 | 8), zero, sign, swapped] => {
            let bytes = *bytes as u32;
            zero_part(*word, bytes) == *zero
                && sign_part(*word, bytes) == *sign
                && swap_bytes(*word, bytes) == *swapped
        }
        _ => false,
    }
}

// What the rows of a table are.
enum Rows {
    Products,
    Quotients,
    SignedQuotients,
    Parts,
}

const TABLES: &[(Rows, &str)] = &[
    (Rows::Products, PRODUCTS),
    (Rows::Quotients, QUOTIENTS),
    (Rows::SignedQuotients, SIGNED_QUOTIENTS),
    (Rows::Parts, PARTS),
];

fn is_right(rows: &Rows, line: &str) -> bool {
    let mut words = [0; 5];
    let count = read_words(line, &mut words);
    let row = words.as_slice().get(..count).unwrap_or(&[]);
    match rows {
        Rows::Products => is_product(row),
        Rows::Quotients => is_quotient(row),
        Rows::SignedQuotients => is_signed_quotient(row),
        Rows::Parts => are_parts(row),
    }
}

// Returns the first row of a table that gives something else.
fn first_other(rows: &Rows, table: &'static str) -> Option<&'static str> {
    for row in table.lines() {
        if !is_right(rows, row) {
            return Some(row);
        }
    }
    None
}

// The same of the tables.
fn first_other_of_all() -> Option<&'static str> {
    for (rows, table) in TABLES {
        if let Some(row) = first_other(rows, table) {
            return Some(row);
        }
    }
    None
}

#[test]
fn computes_wide_words(rt: HostRuntime) {
    assert_eq!(rt; first_other_of_all(), None);
}
