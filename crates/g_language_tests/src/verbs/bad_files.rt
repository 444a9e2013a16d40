//! Verbs with files: in each row the number of the parameter that is bad, and the line.

/// Each verb with files: each of its places bad, empty or missing, and one parameter too many.
pub static VERBS: &str = "\
# INPUT file\n\
1 INPUT\n\
1 INPUT f\n\
1 INPUT ,F\n\
2 INPUT F,G\n\
2 INPUT F,\n\
1 INPUT f,G\n\
1 INPUT ,\n\
1 7 INPUT\n\
1 INPUT    \n\
# COPY file,file\n\
1 COPY\n\
2 COPY F\n\
1 COPY f,G\n\
2 COPY F,g\n\
1 COPY ,G\n\
1 COPY ,F\n\
2 COPY F,\n\
3 COPY F,G,H\n\
3 COPY F,G,\n\
1 COPY f,g\n\
1 COPY f\n\
2 COPY F,g,H\n\
1 COPY ,\n\
2 COPY F,,H\n\
2 1A COPY  F , g\n\
1 COPY F(0),G\n\
2 COPY F,G(4096)\n\
# APPEND file,file\n\
1 APPEND\n\
2 APPEND F\n\
1 APPEND 1,G\n\
2 APPEND F,1\n\
1 APPEND ,G\n\
2 APPEND F,\n\
3 APPEND F,G,H\n\
3 APPEND F,G,\n\
1 APPEND 1,2\n\
1 APPEND 1\n\
2 APPEND F,1,H\n\
1 APPEND ,\n\
1 APPEND :A,G\n\
2 APPEND F,:A\n\
# ERASE file\n\
1 ERASE\n\
1 ERASE F-g\n\
1 ERASE ,F\n\
2 ERASE F,G\n\
2 ERASE F,\n\
1 ERASE ,\n\
2 ERASE F,G,H\n\
# RENAME file,local\n\
1 RENAME\n\
2 RENAME F\n\
1 RENAME f,G\n\
2 RENAME F,g\n\
1 RENAME ,G\n\
2 RENAME F,\n\
3 RENAME F,G,H\n\
3 RENAME F,G,\n\
1 RENAME f,g\n\
1 RENAME f\n\
2 RENAME F,g,H\n\
1 RENAME ,\n\
# LISTFILE file\n\
1 LISTFILE\n\
1 LISTFILE :MASTER\n\
1 LISTFILE ,F\n\
2 LISTFILE F,G\n\
2 LISTFILE F,\n\
1 LISTFILE ,\n\
# RETRIEVE file\n\
1 RETRIEVE\n\
1 RETRIEVE F/G\n\
1 RETRIEVE ,F\n\
2 RETRIEVE F,G\n\
2 RETRIEVE F,\n\
1 RETRIEVE ,\n\
# LOAD file\n\
1 LOAD\n\
1 LOAD F(4096)\n\
1 LOAD ,F\n\
2 LOAD F,F\n\
2 LOAD F,\n\
1 LOAD ,\n\
# PLAN file,file\n\
1 PLAN\n\
2 PLAN F\n\
1 PLAN f,G\n\
1 PLAN ,G\n\
2 PLAN F,\n\
2 PLAN F,g\n\
3 PLAN F,G,H\n\
3 PLAN F,G,\n\
";

/// Texts that are no file.
pub static FILES: &str = "\
# its local name\n\
1 ERASE f\n\
1 ERASE Ff\n\
1 ERASE 1F\n\
1 ERASE -F\n\
1 ERASE F_G\n\
1 ERASE F G\n\
1 ERASE F.G\n\
1 ERASE A.F\n\
1 ERASE ABCDEFGHIJKLM\n\
1 ERASE 7\n\
1 ERASE *CR0\n\
1 ERASE %A\n\
1 ERASE F~\n\
1 ERASE (F)\n\
1 ERASE F/\n\
1 ERASE F/ABC\n\
# its user\n\
1 ERASE :A\n\
1 ERASE :A.\n\
1 ERASE :.F\n\
1 ERASE ::A.F\n\
1 ERASE :a.F\n\
1 ERASE :1.F\n\
1 ERASE :-A.F\n\
1 ERASE :A B.F\n\
1 ERASE : A.F\n\
1 ERASE :A .F\n\
1 ERASE :A. F\n\
1 ERASE :A..F\n\
1 ERASE :A.F.G\n\
1 ERASE :A:F\n\
1 ERASE :ABCDEFGHIJKLM.F\n\
1 ERASE :A.f\n\
1 ERASE :A.(1)\n\
1 ERASE :A(1).F\n\
1 ERASE :\n\
1 ERASE .F\n\
# its generation\n\
1 ERASE F()\n\
1 ERASE F(0)\n\
1 ERASE F(00)\n\
1 ERASE F(01)\n\
1 ERASE F(0001)\n\
1 ERASE F(4096)\n\
1 ERASE F(9999)\n\
1 ERASE F(10000)\n\
1 ERASE F(65537)\n\
1 ERASE F(+1)\n\
1 ERASE F(-1)\n\
1 ERASE F(A)\n\
1 ERASE F(1A)\n\
1 ERASE F( 1)\n\
1 ERASE F(1 )\n\
1 ERASE F (1)\n\
1 ERASE F((1))\n\
1 ERASE F(1)(1)\n\
1 ERASE F(1)G\n\
1 ERASE F(1,2)\n\
1 ERASE (1)\n\
1 ERASE :A.F(0)\n\
# its language\n\
1 ERASE F(/ABCDE)\n\
1 ERASE F(1/ABCDE)\n\
1 ERASE F(/a)\n\
1 ERASE F(/A B)\n\
1 ERASE F(/ A)\n\
1 ERASE F(/A )\n\
1 ERASE F(1/A/B)\n\
1 ERASE F(//)\n\
1 ERASE F(1 /A)\n\
1 ERASE F(0/A)\n\
1 ERASE F(/A,)\n\
1 ERASE F(/A.)\n\
1 ERASE F(A/)\n\
1 ERASE F(/A)B\n\
";

/// Texts that are no local name.
pub static NAMES: &str = "\
2 RENAME F,:A.G\n\
2 RENAME F,:G\n\
2 RENAME F,G(2)\n\
2 RENAME F,G(/ABC)\n\
2 RENAME F,G(2/)\n\
2 RENAME F,Gg\n\
2 RENAME F,1G\n\
2 RENAME F,-G\n\
2 RENAME F,G H\n\
2 RENAME F,G.H\n\
2 RENAME F,G_H\n\
2 RENAME F,(G)\n\
2 RENAME F,ABCDEFGHIJKLM\n\
2 RENAME F,*LP0\n\
2 RENAME F,7\n\
";
