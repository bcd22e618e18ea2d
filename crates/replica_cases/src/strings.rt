// Strings by words.
// Strings by short words: leaves, inner strings, roots; then a string that is told as a lie, and one that
// has the name of the leaf `a`, since names are of strings without their bytes `ee`.
pub const STRINGS: &[(&str, &str)] = &[
    ("a", "0161"),
    ("b", "0162"),
    ("c", "0163"),
    ("d", "0164"),
    ("e", "0165"),
    (
        "ab",
        "0202d7df14c970b8fe33527b5f9c9243f8017d85dc8ceddb01d18d75c672e0121997d1bc\
         52322c3a457f",
    ),
    (
        "cd",
        "020225b62861f4d2c3438dff7847e4fa930a57713362c6d598e0ce18c9a57ba36f8bd27b\
         017bdd77bbd0",
    ),
    (
        "ce",
        "020225b62861f4d2c3438dff7847e4fa930a577133620dbf553220bcd27478f10999d679\
         d564a11632a1",
    ),
    (
        "top1",
        "0202eac499f4df7e84eec005617f66bb98d53363e84f02c3182463cbbc8e099b466939ae\
         43bfd75b2a1f",
    ),
    (
        "top2",
        "0202eac499f4df7e84eec005617f66bb98d53363e84f570c97d2411c3842bdf35262b4d3\
         cb2ef6dcb95e",
    ),
    (
        "root1",
        "030000000100000004000000400296a57ce92cebf3f309925fdf84e9946787defb310000\
         000000000000000000000000000000000000",
    ),
    (
        "root2",
        "03000000020000000400000040021c9e8b5554c39746cfcd139d4fe4c69fbe6bedebf258\
         fb36c22949056dc8c57cfac49f989343a8b0",
    ),
    (
        "root3",
        "0300000003000000000000004002000000000000000000000000000000000000000021c9\
         bfdfd086d9fb3670246d9730c0b734a741c7",
    ),
    ("wrong", "0177"),
    ("twin", "0161ee"),
];
