//! Lines of each verb in each of its forms, and their actions: each row has the verb, followed by the values in order, each after a space (`said`),
//! and after ` <= ` the line.

/// Verbs with files.
pub static FILES: &str = "\
# INPUT file\n\
INPUT F(2/AB) <= INPUT F(2/AB)\n\
INPUT :A.F <= 12 INPUT  :A.F \n\
# COPY file,file\n\
COPY :A.F G(2) <= COPY :A.F,G(2)\n\
COPY F F <= COPY F,F\n\
# APPEND file,file\n\
APPEND F G <= APPEND F , G\n\
APPEND F(/) :B.G(1/) <= APPEND F(/),:B.G(1/)\n\
# ERASE file, in each form of a file\n\
ERASE F <= ERASE F\n\
ERASE :A.F <= ERASE :A.F\n\
ERASE F(1) <= ERASE F(1)\n\
ERASE F(4095) <= ERASE F(4095)\n\
ERASE F(/) <= ERASE F(/)\n\
ERASE F(/A-9Z) <= ERASE F(/A-9Z)\n\
ERASE F(2/) <= ERASE F(2/)\n\
ERASE F(2/ABC) <= ERASE F(2/ABC)\n\
ERASE :A.F(10) <= ERASE :A.F(10)\n\
ERASE :ABCDEFGHIJKL.Z9-(2/0) <= ERASE :ABCDEFGHIJKL.Z9-(2/0)\n\
ERASE ABCDEFGHIJKL <= ERASE ABCDEFGHIJKL\n\
# RENAME file,local\n\
RENAME F G-1 <= RENAME F,G-1\n\
RENAME :A.F(3/AB) ABCDEFGHIJKL <= RENAME :A.F(3/AB),ABCDEFGHIJKL\n\
# LISTFILE file\n\
LISTFILE F <= LISTFILE  F \n\
# RETRIEVE file\n\
RETRIEVE F(1) <= RETRIEVE F(1)\n\
# LOAD file\n\
LOAD P <= LOAD P\n\
# PLAN file,file\n\
PLAN F :A.G(2) <= PLAN F,:A.G(2)\n\
";

/// Verbs with users, modes and budgets.
pub static USERS: &str = "\
# LISTDIR, which may name a user\n\
LISTDIR <= LISTDIR\n\
LISTDIR ANNE <= LISTDIR :ANNE\n\
LISTDIR ABCDEFGHIJ-9 <= LISTDIR  :ABCDEFGHIJ-9 \n\
# TRAPGO file,:USER,modes: the modes' numbers are added up\n\
TRAPGO F B 16 <= TRAPGO F,:B,READ\n\
TRAPGO F B 8 <= TRAPGO F,:B,WRITE\n\
TRAPGO F B 4 <= TRAPGO F,:B,APPEND\n\
TRAPGO F B 2 <= TRAPGO F,:B,EXECUTE\n\
TRAPGO F B 1 <= TRAPGO F,:B,ERASE\n\
TRAPGO :A.F(1) B 31 <= TRAPGO :A.F(1), :B , READ,WRITE,APPEND,EXECUTE,ERASE\n\
# TRAPSTOP file,:USER,modes\n\
TRAPSTOP F B 16 <= TRAPSTOP F,:B,READ\n\
TRAPSTOP F B 24 <= TRAPSTOP F,:B,READ,WRITE\n\
TRAPSTOP F B 17 <= TRAPSTOP F,:B,ERASE,ERASE,READ\n\
TRAPSTOP F B 23 <= TRAPSTOP F,:B,EXECUTE,ERASE,APPEND,READ\n\
TRAPSTOP F B 15 <= TRAPSTOP F,:B,ERASE,EXECUTE,APPEND,WRITE,ERASE\n\
TRAPSTOP F B 16 <= TRAPSTOP F,:B,READ,READ,READ,READ,READ\n\
# TRAPCHECK file, which may name a user\n\
TRAPCHECK F <= TRAPCHECK F\n\
TRAPCHECK F B <= TRAPCHECK F,:B\n\
# NEWUSER :USER,SPACE n,TIME n, which may have MONEY\n\
NEWUSER A 65535 0 <= NEWUSER :A,SPACE 65535,TIME 0\n\
NEWUSER A 0 1000000000 5 <= NEWUSER :A,SPACE 0,TIME 1000000000,MONEY 5\n\
NEWUSER A 10 10 1000000000 <= NEWUSER :A , SPACE 10 , TIME 10 , MONEY 1000000000\n\
NEWUSER A 1 2 0 <= NEWUSER :A,SPACE 1,TIME 2,MONEY 0\n\
# BUDGET :USER and one of SPACE n, TIME n and MONEY n\n\
BUDGET A SPACE 10 <= BUDGET :A,SPACE 10\n\
BUDGET A SPACE 0 <= BUDGET :A,SPACE 0\n\
BUDGET A SPACE 65535 <= BUDGET :A,SPACE 65535\n\
BUDGET A TIME 0 <= BUDGET :A,TIME 0\n\
BUDGET A TIME 1000000000 <= BUDGET :A,TIME 1000000000\n\
BUDGET A MONEY 0 <= BUDGET :A,MONEY 0\n\
BUDGET A MONEY 1000000000 <= BUDGET :A , MONEY 1000000000\n\
";

/// Verbs of programs and jobs, and macros.
pub static JOBS: &str = "\
# ENTER n\n\
ENTER 0 <= ENTER 0\n\
ENTER 1 <= ENTER 1\n\
ENTER 2 <= ENTER 2\n\
ENTER 3 <= ENTER 3\n\
ENTER 4 <= ENTER 4\n\
ENTER 5 <= ENTER 5\n\
ENTER 6 <= ENTER 6\n\
ENTER 7 <= ENTER 7\n\
ENTER 8 <= ENTER 8\n\
ENTER 9 <= ENTER 9\n\
# RESUME\n\
RESUME <= RESUME\n\
RESUME <=   RESUME  \n\
# ASSIGN unit,file\n\
ASSIGN CR0 F <= ASSIGN *CR0,F\n\
ASSIGN LP7 F <= ASSIGN *LP7,F\n\
ASSIGN TP1 :A.F(2/AB) <= ASSIGN *TP1 , :A.F(2/AB)\n\
# RELEASE unit\n\
RELEASE CR0 <= RELEASE *CR0\n\
RELEASE CR7 <= RELEASE *CR7\n\
RELEASE LP0 <= RELEASE *LP0\n\
RELEASE LP7 <= RELEASE *LP7\n\
RELEASE TP0 <= RELEASE *TP0\n\
RELEASE TP1 <= RELEASE *TP1\n\
RELEASE TP7 <= RELEASE *TP7\n\
# DELETE\n\
DELETE <= DELETE\n\
# SETPARAM x, which may have a text\n\
SETPARAM A <= SETPARAM A\n\
SETPARAM X <> <= SETPARAM X,\n\
SETPARAM X <A (B,C)> <= SETPARAM X, A (B,C) \n\
SETPARAM M <Y> <= SETPARAM M,Y\n\
# DISPLAY text\n\
DISPLAY <A (B,C) , D> <= DISPLAY A (B,C) , D \n\
DISPLAY <,> <= DISPLAY ,\n\
DISPLAY <X> <= DISPLAY X\n\
DISPLAY <a,,b  ,> <= DISPLAY   a,,b  ,\n\
# ENDJOB\n\
ENDJOB <= ENDJOB\n\
# Macros\n\
MACRO M <> <X> <= M ,X\n\
MACRO INPUTS <= INPUTS\n\
MACRO COP <F> <= COP F\n\
MACRO M <> <> <> <> <> <> <> <> <> <> <> <> <> <> <> <> <> <> <> <> <> <> <> <> <= M ,,,,,,,,,,,,,,,,,,,,,,,\n\
MACRO M <> <> <> <> <> <> <> <> <> <> <> <> <> <> <> <> <> <> <> <> <> <> <> <X> <= M ,,,,,,,,,,,,,,,,,,,,,,,X\n\
MACRO DO <f> <(A,B)> <= DO f , (A,B) \n\
MACRO ABCDEFGHIJKL <= ABCDEFGHIJKL\n\
";
