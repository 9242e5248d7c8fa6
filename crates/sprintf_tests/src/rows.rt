// Tables of answers, a row a line, its fields parted by `;`.

/// A format and its elements: a literal run in quotes, or a field's flags, width, precision and conversion.
pub(crate) const PARSED: &str = "Hello %#06x;'Hello ',#0/6/6/HexIntLower
;
%-+ *.*hhd%Zp%.007s%s%5%;- +/*/*/DecInt,#/0/6/HexIntLower,/0/7/String,/0/2147483647/String,/5/6/PercentSign
%2147483647d%.2147483647d;/2147483647/6/DecInt,/0/2147483647/DecInt
a%%b;'a',/0/6/PercentSign,'b'
%e%E%f%F%g%G;/0/6/SciFloatLower,/0/6/SciFloatUpper,/0/6/DecFloatLower,/0/6/DecFloatUpper,/0/6/CompactFloatLower,/0/6/CompactFloatUpper
%C%S%i%u%o%X;/0/6/Char,/0/2147483647/String,/0/6/DecInt,/0/6/DecInt,/0/6/OctInt,/0/6/HexIntUpper";

/// Texts outside the grammar.
pub(crate) const NO_FORMATS: &str = "%
%q
a%
%5
%-
%.
%ll
%hhh
%hlld
%1$d
% é
%é
%a
%n
%**d
%5*d
%2147483648d
%.2147483648d
%2147483648%
%.99999999999999999999s
%340282366920938463463374607431768211456d";

/// A format, values, and the printed text.
pub(crate) const PRINTED: &str = "%#06x;i32:16;0x0010
%s = %*d;str:forty-two;i32:4;i32:42;forty-two =   42
%.*s|;i32:2;str:abc;ab|
%*d;i32:-4;i32:42;42
%5%;%
%*%;%
%-6d|;i32:42;42    |
%+06d;i32:42;+00042
% d;i32:5; 5
%x;i8:-1;ff
%o;i16:-1;177777
%#o;i32:0;00
%#X;i32:0;0X0
%.2s;str:aé;a
%4c;char:é;  é
%p;u16:4095;0xfff
%d;u8:255;255
%X;u8:255;FF
%d;u16:65535;65535
%o;u16:65535;177777
%i;u32:4294967295;4294967295
%x;u32:4294967295;ffffffff
%u;u64:18446744073709551615;18446744073709551615
%x;u64:18446744073709551615;ffffffffffffffff
%o;usize:18446744073709551615;1777777777777777777777
%d;u64:0;0
%x;usize:0;0
%d;i8:-128;-128
%u;i8:-128;-128
%x;i8:-128;80
%d;i8:127;127
%d;i16:-32768;-32768
%X;i16:-32768;8000
%d;i32:-2147483648;-2147483648
%x;i32:-2147483648;80000000
%x;i32:-42;ffffffd6
%d;i64:-9223372036854775808;-9223372036854775808
%x;i64:-9223372036854775808;8000000000000000
%o;i64:-1;1777777777777777777777
%d;i64:9223372036854775807;9223372036854775807
%d;isize:-9223372036854775808;-9223372036854775808
%X;isize:-1;FFFFFFFFFFFFFFFF
%-05d|;i32:42;42   |
%0-5d|;i32:-42;-42  |
%+ d;i32:5;+5
% +d;i32:-5;-5
%+d;u8:5;5
% x;i32:5;5
% 05d;i32:42; 0042
%#-8x|;u8:255;0xff    |
%#8x;u8:255;    0xff
%#08X;u8:255;0X0000FF
%#d;u8:7;7
%1d;i32:42;42
%2d;i32:42;42
%3d;i32:42; 42
%03d;i32:-42;-42
%04d;i32:-42;-042
%.1d;i32:123;123
%.9d;i32:123;123
%lld;u64:123456789;123456789
%c;u8:65;A
%c;i8:127;\x7f
%c;u16:955;λ
%lc;u32:128512;😀
%s;str:;
%3s|;str:;   |
%S;str:né;né
%.3s;str:aé;aé
%.0s|;str:abc;|
%.s|;str:abc;|
%.1s|;str:é;|
%.4s|;str:日本;日|
%.5s|;str:日本;日|
%.6s|;str:日本;日本|
%.3s|;str:😀b;|
%.4s|;str:😀b;😀|
%4.2s|;str:aéb;   a|
%-4.2s|;str:aéb;a   |
%4s;str:né; né
%2s;str:né;né
%05s;str:ab;   ab
%+ #5s;str:ab;   ab
%-4c|;char:é;é  |
%2c;char:é;é
%.0C;char:k;k
%03c;char:k;  k
%c;char:😀;😀
%*%%-3.1%;%%
%.*s|;i8:-1;str:abc;|
%*d;i32:-2147483648;u64:1;1
%*.*s|;usize:4;isize:2;str:abc;  ab|
%c%d;char:a;u8:7;a7";

/// A format, values, and the fault: the first one from the left.
pub(crate) const REFUSED: &str = "%c;u8:200;WrongType
%d;str:a;WrongType
%d %d;i32:1;NotEnoughArgs
%d;i32:1;i32:2;TooManyArgs
%;i32:1;ParseError
%q;i32:1;ParseError
%2147483648d;i32:1;ParseError
%f;i32:1;WrongType
%d;NotEnoughArgs
%c;i8:-1;WrongType
%c;u16:55296;WrongType
%c;u32:1114112;WrongType
%c;i32:65;WrongType
%c;u64:65;WrongType
%c;str:a;WrongType
%x;char:a;WrongType
%s;char:a;WrongType
%s;u8:1;WrongType
%G;str:a;WrongType
%*.*d;str:a;WrongType
%*.*d;u8:1;NotEnoughArgs
%s%d;u8:1;WrongType
%%;i32:1;TooManyArgs
%d%;str:a;ParseError
%*d;u64:2147483648;u8:1;WrongType
%*d;i64:-2147483649;u8:1;WrongType
%.*d;char:a;u8:1;WrongType
%*c;i8:3;i64:65;WrongType";

/// A value, and the number that it gives to a `*`, if any.
pub(crate) const GIVEN: &str = "u8:255;255
u16:65535;65535
u32:2147483647;2147483647
u32:2147483648;none
u64:18446744073709551615;none
usize:3;3
i8:-128;-128
i16:-32768;-32768
i32:-2147483648;-2147483648
i64:-2147483648;-2147483648
isize:-2147483649;none
char:1;none
str:1;none";
