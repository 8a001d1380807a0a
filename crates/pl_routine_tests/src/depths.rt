//! Bodies whose parts stand one inside the other.

/// How many parts may be open inside the outermost BEGIN.
pub(crate) const MOST_INSIDE: usize = 99;

/// What stands before all parts, what opens one, what stands in the innermost one, what closes one,
/// and what stands behind all.
pub(crate) type Nest = (
    &'static str,
    &'static str,
    &'static str,
    &'static str,
    &'static str,
);

/// Parts, and the first token that is too deep where there is one too many.
pub(crate) const DEPTHS: [(Nest, &str); 8] = [
    (("BEGIN ", "BEGIN ", "NULL; ", "END; ", "END"), "100"),
    (("BEGIN ", "LOOP ", "NULL; ", "END LOOP; ", "END"), "100"),
    (("BEGIN ", "IF z THEN ", "NULL; ", "END IF; ", "END"), "298"),
    (
        ("BEGIN ", "CASE WHEN z THEN ", "NULL; ", "END CASE; ", "END"),
        "397",
    ),
    (
        (
            "BEGIN ",
            "<<l>> WHILE z LOOP ",
            "EXIT l; ",
            "END LOOP l; ",
            "END",
        ),
        "600",
    ),
    (
        (
            "BEGIN ",
            "BEGIN EXCEPTION WHEN others THEN ",
            "NULL; ",
            "END; ",
            "END",
        ),
        "496",
    ),
    (
        (
            "BEGIN ",
            "DECLARE a integer; BEGIN ",
            "a := 1; ",
            "END; ",
            "END",
        ),
        "500",
    ),
    (("BEGIN x := ", "(", "1", ")", "; END"), "102"),
];
