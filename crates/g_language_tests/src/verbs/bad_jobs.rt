//! Verbs of programs and jobs, and macros: in each row the number of the parameter that is bad, and the line.

/// Each verb of programs and jobs: each of its places bad, empty or missing, and one parameter too many.
pub static VERBS: &str = "\
# ENTER n\n\
1 ENTER\n\
1 ENTER A\n\
1 ENTER ,1\n\
2 ENTER 1,2\n\
2 ENTER 1,\n\
1 ENTER ,\n\
1 ENTER A,1\n\
# RESUME\n\
1 RESUME 1\n\
1 RESUME ,\n\
1 RESUME F,G\n\
# ASSIGN unit,file\n\
1 ASSIGN\n\
2 ASSIGN *CR0\n\
2 ASSIGN *LP7\n\
2 ASSIGN *TP1\n\
1 ASSIGN *CR 0,F\n\
2 ASSIGN *CR0,f\n\
2 ASSIGN *LP0,F(0)\n\
2 ASSIGN *TP0,*TP0\n\
1 ASSIGN ,F\n\
2 ASSIGN *CR0,\n\
3 ASSIGN *CR0,F,G\n\
3 ASSIGN *CR0,F,\n\
1 ASSIGN F,*CR0\n\
1 ASSIGN F\n\
1 ASSIGN *MT0,f\n\
1 ASSIGN ,\n\
1 ASSIGN *CR8,F\n\
1 ASSIGN *MT0,F\n\
1 ASSIGN *LP,F\n\
1 ASSIGN *TP00,F\n\
# RELEASE unit\n\
1 RELEASE\n\
1 RELEASE CR0\n\
1 RELEASE ,*CR0\n\
2 RELEASE *CR0,*CR1\n\
2 RELEASE *LP0,F\n\
2 RELEASE *TP0,\n\
1 RELEASE ,\n\
# DELETE\n\
1 DELETE F\n\
1 DELETE ,\n\
1 DELETE F,G\n\
# SETPARAM x, which may have a text\n\
1 SETPARAM\n\
1 SETPARAM Y,X\n\
1 SETPARAM Y\n\
1 SETPARAM ,X\n\
3 SETPARAM A,X,Y\n\
3 SETPARAM A,X,\n\
3 SETPARAM A,,\n\
1 SETPARAM ,\n\
1 SETPARAM AB,X,Y\n\
# DISPLAY text\n\
1 DISPLAY\n\
1 DISPLAY   \n\
1 9-X DISPLAY\n\
# ENDJOB\n\
1 ENDJOB X\n\
1 ENDJOB ,\n\
1 ENDJOB X,Y\n\
# A macro takes 24 parameters and no 25th.\n\
25 M ,,,,,,,,,,,,,,,,,,,,,,,,\n\
25 M ,,,,,,,,,,,,,,,,,,,,,,,,X\n\
25 M A,B,C,D,E,F,G,H,I,J,K,L,M,N,O,P,Q,R,S,T,U,V,W,X,Y\n\
25 M ,,,,,,,,,,,,,,,,,,,,,,,,,\n\
";

/// Texts that are no unit.
pub static UNITS: &str = "\
1 RELEASE *CR\n\
1 RELEASE *LP\n\
1 RELEASE *TP\n\
1 RELEASE *CR8\n\
1 RELEASE *CR9\n\
1 RELEASE *LP8\n\
1 RELEASE *TP8\n\
1 RELEASE *CR00\n\
1 RELEASE *LP10\n\
1 RELEASE *TP07\n\
1 RELEASE *CR 0\n\
1 RELEASE * CR0\n\
1 RELEASE *cr0\n\
1 RELEASE *CRA\n\
1 RELEASE *CR+1\n\
1 RELEASE *CR-1\n\
1 RELEASE *MT0\n\
1 RELEASE **CR0\n\
1 RELEASE *C0\n\
1 RELEASE *0\n\
1 RELEASE *\n\
1 RELEASE 0\n\
1 RELEASE F\n\
1 RELEASE *CR(0)\n\
1 RELEASE (*CR0)\n\
1 RELEASE LP0\n\
1 RELEASE :CR0\n\
1 RELEASE *CR/\n\
1 RELEASE *LP:\n\
1 RELEASE *TP0 0\n\
";

/// Texts that are no letter from A to X.
pub static LETTERS: &str = "\
1 SETPARAM Z,X\n\
1 SETPARAM a,X\n\
1 SETPARAM x,X\n\
1 SETPARAM AB,X\n\
1 SETPARAM AA\n\
1 SETPARAM A B\n\
1 SETPARAM %A,X\n\
1 SETPARAM 1,X\n\
1 SETPARAM @,X\n\
1 SETPARAM -,X\n\
1 SETPARAM (A),X\n\
1 SETPARAM (A,X)\n\
1 SETPARAM A=X\n\
1 SETPARAM [,X\n\
";

/// Texts that are no number from 0 to 9.
pub static DIGITS: &str = "\
1 ENTER 00\n\
1 ENTER 01\n\
1 ENTER 10\n\
1 ENTER 11\n\
1 ENTER 99\n\
1 ENTER +1\n\
1 ENTER -1\n\
1 ENTER -0\n\
1 ENTER 1A\n\
1 ENTER 1 2\n\
1 ENTER 1.0\n\
1 ENTER (1)\n\
1 ENTER 4294967296\n\
1 ENTER 18446744073709551616\n\
1 ENTER *CR0\n\
1 ENTER N 1\n\
1 ENTER :\n\
1 ENTER /\n\
";
