//! Canonical texts of programs.

use crate::expression::put_expression;
use crate::print::print_program;
use loom_lang::expression::{ExprError, parse_expr};
use loom_lang::limits::FILE_LIMIT;
use loom_lang::parse::{LangError, parse_program};
use loom_tree::name::Name;
use std::alloc::Global;
use std::test::Fail;

/// The canonical text of the program that a text is. No text here is too long.
fn text_of(alloc: Global, text: &[u8]) -> Result<Name, LangError> {
    if text.len() > FILE_LIMIT {
        return Err(LangError::NoMemory);
    }
    Ok(print_program(alloc, &parse_program(alloc, text)?)?)
}

/// A text, and the canonical text of the same program.
struct Row {
    text: &'static str,
    canonical: &'static str,
}

const ROWS: [Row; 7] = [
    Row {
        text: "fn main(){print (2+3)*4;}",
        canonical: "fn main() {\n  print (2 + 3) * 4;\n}\n",
    },
    Row {
        text: "fn main(){}",
        canonical: "fn main() {\n}\n",
    },
    Row {
        text: "sema s;fn f(a,b){return;}sema t=2147483647;shared x;fn main(){}mutex m;shared c[10];shared y=-7;mutex n;shared z=007;",
        canonical: "shared x = 0;\nshared c[10];\nshared y = -7;\nshared z = 7;\nmutex m;\nmutex n;\nsema s = 0;\nsema t = 2147483647;\nfn f(a, b) {\n  return;\n}\nfn main() {\n}\n",
    },
    Row {
        text: "fn main(){\nlet a=1;\nif(a){\nwhile(a<3){\nif(a==2){\nskip;\n}else{\na=a+1;\n}\n}\n}else{}\nwhile(1){}\nif(a){}else{\nskip;\n}\n}",
        canonical: "fn main() {\n  let a = 1;\n  if (a) {\n    while (a < 3) {\n      if (a == 2) {\n        skip;\n      } else {\n        a = a + 1;\n      }\n    }\n  }\n  while (1) {\n  }\n  if (a) {\n  } else {\n    skip;\n  }\n}\n",
    },
    Row {
        text: "shared v;shared c[2];fn main(){\nprint -(v+1);\nprint !(-v);\nprint - - v;\nprint !c[v-1];\nprint (((v)));\nprint v-(1-2)-3;\nprint (v*2)+(3%4)/5;\nv=c[-1]==(2!=3);\nv=1<2<=3>4>=5&&6||7;\n}",
        canonical: "shared v = 0;\nshared c[2];\nfn main() {\n  print -(v + 1);\n  print !-v;\n  print --v;\n  print !c[v - 1];\n  print v;\n  print (v - (1 - 2)) - 3;\n  print (v * 2) + ((3 % 4) / 5);\n  v = c[-1] == (2 != 3);\n  v = (((((1 < 2) <= 3) > 4) >= 5) && 6) || 7;\n}\n",
    },
    Row {
        text: "mutex m;sema s=1;shared x;shared c[4];fn f(p,q){\nreturn p+q;\n}\nfn g(){\nreturn;\n}\nfn main(){\nlet a=f(1,2);\nlet b=spawn f(a,x);\nlet d=spawn g();\na=f(a+1,b);\nb=spawn g();\nx=9223372036854775807;\nc[a]=c[b*2];\nf(a,b);\ng();\nlock m;\nunlock m;\ndown s;\nup s;\njoin b;\nprint d;\nskip;\n}",
        canonical: "shared x = 0;\nshared c[4];\nmutex m;\nsema s = 1;\nfn f(p, q) {\n  return p + q;\n}\nfn g() {\n  return;\n}\nfn main() {\n  let a = f(1, 2);\n  let b = spawn f(a, x);\n  let d = spawn g();\n  a = f(a + 1, b);\n  b = spawn g();\n  x = 9223372036854775807;\n  c[a] = c[b * 2];\n  f(a, b);\n  g();\n  lock m;\n  unlock m;\n  down s;\n  up s;\n  join b;\n  print d;\n  skip;\n}\n",
    },
    Row {
        text: "// a comment\nfn main() {\n  // another\n  print 1; // more\n}\nshared x = -9223372036854775807;\n",
        canonical: "shared x = -9223372036854775807;\nfn main() {\n  print 1;\n}\n",
    },
];

#[test]
fn prints(rt: HostRuntime) -> Result<(), Fail> {
    let alloc = rt.alloc();
    for (row, wanted) in ROWS.iter().enumerate() {
        let once = text_of(alloc, wanted.text.as_bytes())?;
        assert_eq!(rt; once.bytes(), wanted.canonical.as_bytes(), "row {row}");
        let twice = text_of(alloc, once.bytes())?;
        assert_eq!(rt; twice.bytes(), once.bytes(), "row {row} again");
    }
    Ok(())
}

/// The canonical text of the expression that a text is. No text here is too long.
fn expression_of(alloc: Global, text: &[u8]) -> Result<Name, ExprError> {
    if text.len() > FILE_LIMIT {
        return Err(ExprError::NoMemory);
    }
    let mut out = Name(Vec::new(alloc));
    put_expression(&mut out, &parse_expr(alloc, text)?)?;
    Ok(out)
}

#[test]
fn reads_expressions(rt: HostRuntime) -> Result<(), Fail> {
    let rows: [(&str, &str); 4] = [
        ("2 + 3", "2 + 3"),
        ("(2+3)*4", "(2 + 3) * 4"),
        ("// first\n!a[ i ]", "!a[i]"),
        ("((p))", "p"),
    ];
    for (text, canonical) in rows {
        let shown = expression_of(rt.alloc(), text.as_bytes())?;
        assert_eq!(rt; shown.bytes(), canonical.as_bytes(), "{text}");
    }
    for text in ["", "2 +", "2 + 3;", "(2", "9223372036854775808", "if"] {
        assert_eq!(rt;
            expression_of(rt.alloc(), text.as_bytes()).is_err(),
            true,
            "{text}"
        );
    }
    Ok(())
}
